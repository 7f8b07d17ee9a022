// The words of a text, one after the other.
ghost use Rattle.std.specs.Prelude.{◌≡◌, ◌≤◌, length};
ghost use Rattle.notation.specs.Inside.{EndsWord, Finds, Skips};
ghost use Rattle.notation.specs.Words.{is_space};

use crate::Word;

// The first word from `at` on; where there is none, no character at the end.
pub(crate) fn next(text: &[u8], at: usize) -> Word
    requires { at ≤ length text.now }
    ensures { Finds text.now at result }
{
    let start = skipped(text, at);
    let end = ended(text, start);
    Word { start, end }
}

// The first character from `at` on that is no space, or the end.
pub(crate) fn skipped(text: &[u8], at: usize) -> usize
    requires { at ≤ length text.now }
    ensures { Skips text.now at result }
{
    for i in at..text.len() {
        if !is_space(text[i]) {
            return i;
        }
    }
    text.len()
}

// The first character from `at` on that is a space, or the end.
fn ended(text: &[u8], at: usize) -> usize
    requires { at ≤ length text.now }
    ensures { EndsWord text.now at result }
{
    for i in at..text.len() {
        if is_space(text[i]) {
            return i;
        }
    }
    text.len()
}

fn is_space(c: u8) -> bool
    ensures { result ≡ is_space c }
{
    c == b' ' || c == b'\t' || c == b'\n'
}
