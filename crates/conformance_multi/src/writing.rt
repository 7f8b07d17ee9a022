// The vectors of writing a multipacket. INPUT is room (4 bytes), then the value. EXPECTED is number (1), place (4), len (4), then the words that the call
// writes. Behind them the output must hold what it held before.
ghost use Rattle.std.specs.Prelude.{◌≤◌, length};

use crate::{ROOM, value, words};
use vectors::{Outcome, judged};

// A lent output must fit.
const OUT_WORDS: usize = 20480;

// Before the output in an answer.
const HEAD: usize = 9;

pub(crate) fn outcome(input: &[u8], expected: &[u8]) -> Outcome {
    if !value::is_readable(input) {
        return Outcome::Unreadable;
    }
    let room = vectors::number(input);
    if OUT_WORDS < room {
        return Outcome::Unreadable;
    }
    let mut out = [0u16; OUT_WORDS];
    judged(agrees(input, expected, &mut out[..room]))
}

// The output is a part of a longer array, and nothing else of that array is lent.
fn agrees(input: &[u8], expected: &[u8], out: &mut [u16]) -> bool
    requires { length out.old ≤ 20480 }
{
    vectors::pattern(out);
    let before = shown(out);
    let written = value::write(input, out);
    let mut after = shown(out);
    vectors::put_refusal(&mut after, written.refusal);
    vectors::put_number(&mut after, 5, written.len);
    let end = HEAD + 2 * out.len();
    vectors::holds(&before[..end], &after[..end], expected)
}

// An output in the room of an answer.
fn shown(out: &[u16]) -> [u8; ROOM] {
    let mut answer = [0u8; ROOM];
    words::put(out, HEAD, &mut answer);
    answer
}
