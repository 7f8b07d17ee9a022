// A packet's words in an input, behind the room: each is two bytes, the high one first.
ghost use Rattle.std.specs.Prelude.{◌*◌, ◌≤◌, length, IfSome};

// Where the first word begins.
const FIRST: usize = 4;

// The words must fit.
pub(crate) const WORDS: usize = 32768;

// The bytes of the words; none where an input has no whole words, or too many.
pub(crate) fn bytes_of(input: &[u8]) -> Option<&[u8]>
    ensures { IfSome result (λ bytes. length bytes.now ≤ 2 * 32768) }
{
    let bytes = input.get(FIRST..)?;
    if bytes.len() % 2 == 0 && bytes.len() <= 2 * WORDS {
        Some(bytes)
    } else {
        None
    }
}
