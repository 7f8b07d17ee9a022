// The vectors of writing a packet. INPUT is room (4 bytes), counter (4), then the five slots. EXPECTED is number
// (1), place (4), len (4), then the words of the whole output as the call leaves it.
ghost use Rattle.std.specs.Prelude.{◌+◌, ◌*◌, ◌≤◌, ◌<◌, length};

use crate::ROOM;
use crate::packet_reading::SLOT;
use fields::OddEven;
use sdp::{Packet, ROW_BYTES, SLOTS, Slot};
use vectors::{Outcome, judged};

// A lent output must fit.
const OUT_WORDS: usize = 20480;

// Before the output in an answer.
const HEAD: usize = 9;

// Before the slots of an input.
const FRONT: usize = 8;

const INPUT: usize = FRONT + SLOT * SLOTS;

pub(crate) fn outcome(input: &[u8], expected: &[u8]) -> Outcome {
    if input.len() != INPUT {
        return Outcome::Unreadable;
    }
    let room = vectors::number(input);
    if OUT_WORDS < room {
        return Outcome::Unreadable;
    }
    let packet = packet_of(input);
    let rows = rows_of(input);
    let mut out = [0u16; OUT_WORDS];
    let mut answer = [0u8; ROOM];
    judged(agrees(packet, rows, expected, &mut out[..room], &mut answer))
}

// The output is a part of a longer array, and nothing else of that array is lent.
fn agrees(
    packet: Packet,
    rows: [[u8; ROW_BYTES]; SLOTS],
    expected: &[u8],
    out: &mut [u16],
    answer: &mut [u8],
) -> bool
    requires { 9 + 2 * length out.old ≤ length answer.old }
{
    vectors::pattern(out);
    let written = subtitling_writer::write(packet, rows, out);
    vectors::put_refusal(answer, written.refusal);
    vectors::put_number(answer, 5, written.len);
    put_words(out, answer);
    let end = HEAD + 2 * out.len();
    &answer[..end] == expected
}

// Stores the output after the answer's head.
fn put_words(out: &[u16], answer: &mut [u8])
    requires { 9 + 2 * length out.now ≤ length answer.old }
{
    for (i, w) in out.iter().enumerate() {
        vectors::put_word(answer, HEAD + 2 * i, *w);
    }
}

fn packet_of(input: &[u8]) -> Packet {
    let mut slots = [slot_at(input, FRONT); SLOTS];
    for (i, slot) in slots.iter_mut().enumerate() {
        *slot = slot_at(input, FRONT + SLOT * i);
    }
    Packet {
        counter: vectors::long(input, 4),
        slots,
    }
}

fn slot_at(input: &[u8], at: usize) -> Slot
    requires { at < 4096 }
{
    Slot {
        full: vectors::byte(input, at),
        line: vectors::byte(input, at + 1),
        reserved: vectors::byte(input, at + 2),
        field: OddEven(vectors::byte(input, at + 3)),
    }
}

fn rows_of(input: &[u8]) -> [[u8; ROW_BYTES]; SLOTS] {
    let mut rows = [[0u8; ROW_BYTES]; SLOTS];
    for i in 0..SLOTS {
        vectors::take(input, FRONT + SLOT * i + 4, &mut rows[i]);
    }
    rows
}
