// The vectors of reading a payload, which is INPUT. EXPECTED is number (1 byte), place (4), flags (1), m
// (4), then all 291 units of 7 bytes, zeros beyond m, so that unused room is compared too.
ghost use Rattle.std.specs.Prelude.{◌<◌};

use line21::{AccessUnit, MAX_UNITS};
use refusal::Refusal;
use vectors::{Outcome, judged};

const HEAD: usize = 10;

const ANSWER: usize = HEAD + 7 * MAX_UNITS;

// The payload is read twice, whole and by its head and single units, and both must agree.
pub(crate) fn outcome(input: &[u8], expected: &[u8]) -> Outcome {
    judged(read_whole(input).as_slice() == expected && read_apart(input).as_slice() == expected)
}

fn read_whole(input: &[u8]) -> [u8; ANSWER] {
    let answer = line21::read(input);
    let payload = answer.payload;
    let mut out = head(answer.refusal, payload.flags, payload.m);
    for (i, unit) in payload.units.iter().enumerate() {
        put_unit(*unit, i, &mut out);
    }
    out
}

// A unit that is absent or refused leaves zeros.
fn read_apart(input: &[u8]) -> [u8; ANSWER] {
    let answer = line21::read_head(input);
    let mut out = head(answer.refusal, answer.flags, answer.m);
    for i in 0..MAX_UNITS {
        if let Ok(unit) = line21::read_unit(input, i) {
            put_unit(unit, i, &mut out);
        }
    }
    out
}

// An answer with no units yet.
fn head(refusal: Refusal, flags: u8, m: usize) -> [u8; ANSWER] {
    let mut out = [0u8; ANSWER];
    vectors::put_refusal(&mut out, refusal);
    vectors::put(&mut out, 5, flags);
    vectors::put_number(&mut out, 6, m);
    out
}

fn put_unit(unit: AccessUnit, i: usize, out: &mut [u8; ANSWER])
    requires { i < 291 }
{
    let at = HEAD + 7 * i;
    out[at..at + 7].copy_from_slice(&[
        unit.cc_valid_1,
        unit.cc_valid_2,
        unit.padding,
        unit.field1_data1,
        unit.field1_data2,
        unit.field2_data1,
        unit.field2_data2,
    ]);
}
