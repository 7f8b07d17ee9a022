// The vectors of the units of an area, which is INPUT. EXPECTED is number (1 byte), place (4), then the first byte (4) of each unit and the first behind it
// (4).
ghost use Rattle.std.specs.Prelude.{◌≤◌, length};

use crate::ROOM;
use kind::Kind;
use refusal::{Refusal, Verdict};
use units::{Found, MAX_BYTES, START_BYTES};
use vectors::{Outcome, judged};

// Before the units of an answer.
const HEAD: usize = 5;

// A unit in an answer.
const SPAN: usize = 8;

pub(crate) fn outcome(input: &[u8], expected: &[u8]) -> Outcome {
    let mut out = [0u8; ROOM];
    judged(agrees(input, expected, &mut out))
}

// An answer that does not fit differs.
fn agrees(input: &[u8], expected: &[u8], out: &mut [u8]) -> bool {
    let n = put_answer(input, out);
    out.get(..n) == Some(expected)
}

// Stores the answer, and answers its length.
fn put_answer(s: &[u8], out: &mut [u8]) -> usize {
    let found = units::scan(s, Kind::Scte20);
    if let Found::NotUnits(reason, item) = found {
        vectors::put_refusal(out, Refusal::from(Err((reason, item))));
        return HEAD;
    }
    if MAX_BYTES < s.len() {
        return 0;
    }
    put_units(s, out)
}

fn put_units(s: &[u8], out: &mut [u8]) -> usize
    requires { length s.now ≤ 16384 }
{
    let mut at = 0;
    let mut k = HEAD;
    // A while: a step goes to the next unit, not to the next byte.
    while at < s.len() {
        let end = units::next(s, at + START_BYTES);
        vectors::put_number(out, k, at);
        vectors::put_number(out, k + 4, end);
        k += SPAN;
        at = end;
    }
    k
}
