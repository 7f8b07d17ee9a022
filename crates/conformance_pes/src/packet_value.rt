// A packet's value in an input, behind the room: counter (4 bytes), then the five slots, each as full, line, reserved, field (1 each) and its row (42).
ghost use Rattle.std.specs.Prelude.{◌<◌};

use fields::OddEven;
use refusal::Written;
use sdp::{Packet, ROW_BYTES, SLOTS, Slot};

// Where the first slot begins, and its row.
const FIRST: usize = 8;

const FIRST_ROW: usize = FIRST + 4;

const SLOT: usize = 4 + ROW_BYTES;

pub(crate) const END: usize = FIRST + SLOT * SLOTS;

pub(crate) fn convert(input: &[u8], out: &mut [u8]) -> Written {
    let packet = packet_of(input);
    let rows = rows_of(input);
    pes_convert::convert_value(packet, &rows, out)
}

// As `conformance` has it: a crate of their own for these few lines is no plainer.
fn packet_of(input: &[u8]) -> Packet {
    let mut slots = [slot_at(input, FIRST); SLOTS];
    for (i, slot) in slots.iter_mut().enumerate() {
        *slot = slot_at(input, FIRST + SLOT * i);
    }
    Packet {
        counter: vectors::long(input, 4),
        slots,
    }
}

fn slot_at(input: &[u8], at: usize) -> Slot
    requires { at < 4096 }
{
    Slot {
        full: vectors::byte(input, at),
        line: vectors::byte(input, at + 1),
        reserved: vectors::byte(input, at + 2),
        field: OddEven(vectors::byte(input, at + 3)),
    }
}

fn rows_of(input: &[u8]) -> [[u8; ROW_BYTES]; SLOTS] {
    let mut rows = [[0u8; ROW_BYTES]; SLOTS];
    for i in 0..SLOTS {
        vectors::take(input, FIRST_ROW + SLOT * i, &mut rows[i]);
    }
    rows
}
