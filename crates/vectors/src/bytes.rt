// The bytes and numbers that inputs and answers are made of.
ghost use Rattle.std.specs.Prelude.{◌≡◌, ℕ, ◌+◌, ◌^◌, ◌<◌, ◌↔◌, IsTrue, length, take, drop, get_or, set};
ghost use Rattle.vectors.specs.Numbers.{number_in, number_put};

use crate::words::long;
use refusal::Refusal;

// The byte at an index; 0 beyond the end.
pub fn byte(s: &[u8], at: usize) -> u8
    ensures { result ≡ get_or s.now at 0 }
{
    s.get(at).copied().unwrap_or(0)
}

// The number that the first four bytes write, the most significant first. Missing ones count as 0.
pub fn number(s: &[u8]) -> usize
    ensures { result ≡ number_in s.now }
{
    long(s, 0) as usize
}

// Fills an output with the bytes from an index on. Missing ones are 0.
pub fn take(s: &[u8], at: usize, out: &mut [u8])
    ensures { (k : ℕ) → k < length out.old → get_or out.new k 0 ≡ get_or s.now (at + k) 0 }
{
    for (i, b) in out.iter_mut().enumerate() {
        *b = byte(s, at.saturating_add(i));
    }
}

// Whether memory that was lent to a call holds what is expected at its front, and behind that what it held
// before. Memory of another length does not.
pub fn holds(before: &[u8], after: &[u8], expected: &[u8]) -> bool
    ensures { IsTrue result ↔ ((length before.now ≡ length after.now) × (take (length expected.now) after.now ≡ expected.now) × (drop (length expected.now) after.now ≡ drop (length expected.now) before.now)) }
{
    let k = expected.len();
    if before.len() != after.len() || after.len() < k {
        return false;
    }
    if &after[..k] == expected {
        after[k..] == before[k..]
    } else {
        false
    }
}

// Stores a byte at an index; beyond the end nothing, so that an answer with too little room differs.
pub fn put(out: &mut [u8], at: usize, b: u8)
    ensures { out.new ≡ set out.old at b }
{
    if at < out.len() {
        out[at] = b;
    }
}

// Stores the four bytes that write a number, the most significant first. Of a larger number, its last
// four.
pub fn put_number(out: &mut [u8], at: usize, n: usize)
    ensures { out.new ≡ number_put out.old at n }
{
    if out.len() <= at {
        return;
    }
    put(out, at, (n / 16777216 % 256) as u8);
    put(out, at + 1, (n / 65536 % 256) as u8);
    put(out, at + 2, (n / 256 % 256) as u8);
    put(out, at + 3, (n % 256) as u8);
}

// Stores the five bytes that every answer begins with: the number and the place.
pub fn put_refusal(out: &mut [u8], r: Refusal)
    ensures { out.new ≡ number_put (set out.old 0 r.number) 1 r.place }
{
    put(out, 0, r.number);
    put_number(out, 1, r.place);
}
