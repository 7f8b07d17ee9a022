// The vectors of reading a packet. INPUT is its words, each as two bytes, the high one first. EXPECTED is number (1 byte), place (4), counter (4),
// then the five slots, all zero in a refusal.
ghost use Rattle.std.specs.Prelude.{◌+◌, ◌≤◌};

use sdp::{ROW_BYTES, SLOTS, Slot};
use vectors::{Outcome, judged};

// An input must fit: some are far longer than a packet may be.
const INPUT_WORDS: usize = 32768;

// Before the slots of an answer.
const HEAD: usize = 9;

// A slot in an input or an answer: full, line, reserved, field, and the row.
pub(crate) const SLOT: usize = 4 + ROW_BYTES;

const ANSWER: usize = HEAD + SLOT * SLOTS;

pub(crate) fn outcome(input: &[u8], expected: &[u8]) -> Outcome {
    let n = input.len() / 2;
    if input.len() % 2 != 0 {
        return Outcome::Unreadable;
    }
    if INPUT_WORDS < n {
        return Outcome::Unreadable;
    }
    let mut words = [0u16; INPUT_WORDS];
    vectors::take_words(input, &mut words[..n]);
    let answer = answer_of(&words[..n]);
    judged(answer.as_slice() == expected)
}

fn answer_of(words: &[u16]) -> [u8; ANSWER] {
    let answer = subtitling_reader::read(words);
    let packet = answer.packet;
    let rows = subtitling_reader::read_rows(words);
    let mut out = [0u8; ANSWER];
    vectors::put_refusal(&mut out, answer.refusal);
    vectors::put_number(&mut out, 5, packet.counter as usize);
    for i in 0..SLOTS {
        put_slot(packet.slots[i], rows[i], HEAD + SLOT * i, &mut out);
    }
    out
}

fn put_slot(slot: Slot, row: [u8; ROW_BYTES], at: usize, out: &mut [u8; ANSWER])
    requires { at + 46 ≤ 239 }
{
    out[at] = slot.full;
    out[at + 1] = slot.line;
    out[at + 2] = slot.reserved;
    out[at + 3] = slot.field.0;
    out[at + 4..at + SLOT].copy_from_slice(&row);
}
