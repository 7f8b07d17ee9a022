// The vectors of writing a payload. INPUT is flags (1 byte), m (4), room (4), then units of 7 bytes; missing ones
// are zero. EXPECTED is number (1), place (4), len (4), then the whole output as the call leaves it.
ghost use Rattle.std.specs.Prelude.{◌≤◌, ◌<◌, length};

use crate::ROOM;
use line21::{AccessUnit, MAX_UNITS, Payload};
use refusal::Written;
use vectors::{Outcome, judged};

// Before the units of an input, and before the output in an answer.
const HEAD: usize = 9;

pub(crate) fn outcome(input: &[u8], expected: &[u8]) -> Outcome {
    if input.len() < HEAD {
        return Outcome::Unreadable;
    }
    let payload = payload_of(input);
    written(vectors::number(&input[5..]), expected, |out| {
        line21_writer::write(payload, out)
    })
}

// What becomes of a vector by the room of the output, which the call is lent as a part of the answer's room.
pub(crate) fn written<F: FnOnce(&mut [u8]) -> Written>(
    room: usize,
    expected: &[u8],
    call: F,
) -> Outcome
    requires { F.IsAlwaysCallable call }
{
    if ROOM - HEAD < room {
        return Outcome::Unreadable;
    }
    let end = HEAD + room;
    let mut answer = [0u8; ROOM];
    vectors::pattern(&mut answer[HEAD..end]);
    let written = call(&mut answer[HEAD..end]);
    vectors::put_refusal(&mut answer, written.refusal);
    vectors::put_number(&mut answer, 5, written.len);
    judged(&answer[..end] == expected)
}

fn payload_of(input: &[u8]) -> Payload
    requires { 9 ≤ length input.now }
{
    let m = vectors::number(&input[1..]);
    let mut units = [unit_at(input, HEAD); MAX_UNITS];
    for (i, unit) in units.iter_mut().enumerate() {
        *unit = unit_at(input, HEAD + 7 * i);
    }
    Payload {
        flags: input[0],
        m,
        units,
    }
}

fn unit_at(input: &[u8], at: usize) -> AccessUnit
    requires { at < 4096 }
{
    AccessUnit {
        cc_valid_1: vectors::byte(input, at),
        cc_valid_2: vectors::byte(input, at + 1),
        padding: vectors::byte(input, at + 2),
        field1_data1: vectors::byte(input, at + 3),
        field1_data2: vectors::byte(input, at + 4),
        field2_data1: vectors::byte(input, at + 5),
        field2_data2: vectors::byte(input, at + 6),
    }
}
