// One line and its fields.
ghost use Rattle.std.specs.Prelude.{◌≡◌, [], length, get_or};
ghost use Rattle.vectors.specs.Lines.{fields_of, Found, marked_of, unmarked_of};

use crate::bytes::byte;

// The first index from `from` on at which the byte stands, or the length where it does not.
pub fn find(s: &[u8], from: usize, byte: u8) -> usize
    ensures { Found s.now from byte result }
{
    for i in from..s.len() {
        if s[i] == byte {
            return i;
        }
    }
    s.len()
}

// How many fields a line has: one more than its spaces.
pub fn fields(s: &[u8]) -> usize
    ensures { result ≡ length (fields_of s.now) }
{
    s.split(|b| *b == b' ').count()
}

// The field of an index, counted from 0; no bytes where the line has fewer.
pub fn field(s: &[u8], k: usize) -> &[u8]
    ensures { result.now ≡ get_or (fields_of s.now) k [] }
{
    s.split(|b| *b == b' ').nth(k).unwrap_or(&[])
}

// Whether a line bears the mark of a vector that is wrong on purpose.
pub fn is_wrong(s: &[u8]) -> bool
    ensures { result ≡ marked_of s.now }
{
    byte(s, 0) == b'!'
}

// A line without that mark.
pub fn unmarked(s: &[u8]) -> &[u8]
    ensures { result.now ≡ unmarked_of s.now }
{
    if is_wrong(s) { &s[1..] } else { s }
}
