// The vectors of film. INPUT is the calls of a run, one behind the other: 1 for a picture and 0 for a closing (1 byte),
// top_field_first (1), repeat_first_field (1), the set line (1), reserved (1), flag (1), n (4), z (4), then 31 records of
// 5 bytes. EXPECTED is the answer of each call: number (1), place (4), 1 where it is refused and leaves the state as it
// was (1), how many units it sends (1), two units of 7 bytes, zeros where it sends fewer.
// Behind the answers is the state at the end: 1 where a slot waits (1), its cc_valid (1), its data bytes (2).
ghost use Rattle.std.specs.Prelude.{◌<◌};

use film::{Answer, Sent, Shown, State};
use line21::AccessUnit;
use scte20::{LENT_RECORDS, Numbers};
use vectors::{Outcome, judged};

// Where the records of a call begin.
const RECORDS: usize = 14;

const CALL: usize = RECORDS + LENT_RECORDS;

const ANSWER: usize = 21;

const STATE: usize = 4;

pub(crate) fn outcome(input: &[u8], expected: &[u8]) -> Outcome {
    if input.len() % CALL != 0 {
        return Outcome::Unreadable;
    }
    judged(agrees(input, expected))
}

// Every call takes the state that the one before it answered, whether that one was refused or not.
fn agrees(input: &[u8], expected: &[u8]) -> bool {
    let mut state = None;
    let mut told = expected;
    for call in input.chunks_exact(CALL) {
        let Some((wanted, rest)) = told.split_at_checked(ANSWER) else {
            return false;
        };
        let answer = answer_of(state, call);
        if !is_answer(state, answer, wanted) {
            return false;
        }
        state = answer.state;
        told = rest;
    }
    is_state(state, told)
}

fn answer_of(state: State, call: &[u8]) -> Answer {
    if vectors::byte(call, 0) == 0 {
        return film::close(state);
    }
    let records = records_of(call);
    film_picture::picture(state, shown_of(call), numbers_of(call), &records)
}

fn shown_of(call: &[u8]) -> Shown {
    Shown {
        top_field_first: vectors::byte(call, 1) != 0,
        repeat_first_field: vectors::byte(call, 2) != 0,
        line_offset: vectors::byte(call, 3),
    }
}

fn numbers_of(call: &[u8]) -> Numbers {
    Numbers {
        reserved: vectors::byte(call, 4),
        vbi_data_flag: vectors::byte(call, 5),
        n: vectors::long(call, 6) as usize,
        z: vectors::long(call, 10) as usize,
    }
}

fn records_of(call: &[u8]) -> [u8; LENT_RECORDS] {
    let mut records = [0u8; LENT_RECORDS];
    for i in 0..LENT_RECORDS {
        records[i] = vectors::byte(call, RECORDS + i);
    }
    records
}

fn is_answer(before: State, answer: Answer, expected: &[u8]) -> bool {
    answer_bytes(before, answer).as_slice() == expected
}

fn is_state(state: State, expected: &[u8]) -> bool {
    state_bytes(state).as_slice() == expected
}

fn answer_bytes(before: State, answer: Answer) -> [u8; ANSWER] {
    let mut out = [0u8; ANSWER];
    vectors::put_refusal(&mut out, answer.refusal);
    vectors::put(&mut out, 5, u8::from(is_kept(before, answer)));
    put_sent(answer.sent, &mut out);
    out
}

// Whether a call is refused and leaves the state as it was.
fn is_kept(before: State, answer: Answer) -> bool {
    // By its number: `refused-keeps` has the state beside a refusal, so that the answer is no Result.
    answer.refusal.number != 0 && answer.state == before
}

fn put_sent(sent: Sent, out: &mut [u8]) {
    match sent {
        Sent::None => {}
        Sent::One(first) => {
            vectors::put(out, 6, 1);
            put_unit(first, 7, out);
        }
        Sent::Two(first, second) => {
            vectors::put(out, 6, 2);
            put_unit(first, 7, out);
            put_unit(second, 14, out);
        }
    }
}

fn put_unit(unit: AccessUnit, at: usize, out: &mut [u8])
    requires { at < 4096 }
{
    let bytes = line21::lent_bytes(unit);
    for i in 0..bytes.len() {
        vectors::put(out, at + i, bytes[i]);
    }
}

fn state_bytes(state: State) -> [u8; STATE] {
    match state {
        None => [0, 0, 0, 0],
        Some(None) => [1, 0, 0, 0],
        Some(Some((data_1, data_2))) => [1, 1, data_1, data_2],
    }
}
