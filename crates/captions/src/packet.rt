// The subtitling packet.
ghost use Rattle.std.specs.Prelude.{◌≡◌, ◌+◌, ◌*◌, ◌≤◌, length, drop};
ghost use Rattle.subtitling.specs.Reading.{ReadsInto};
ghost use Rattle.subtitling.specs.Writing.{Writes};
ghost use Rattle.captions.specs.Calls.{slot_in, packet_in};

use fields::OddEven;
use refusal::Written;
use sdp::{Packet, ROW_BYTES, SLOTS, Slot};
use subtitling::Answer;

// A slot's numbers as four bytes, one for each number of a `Slot` and in its order.
const LENT_SLOT: usize = 4;

pub(crate) const LENT_SLOTS: usize = 20;

// Reads a packet, its rows into a lent array.
#[unsafe(no_mangle)]
pub extern "C" fn captions_packet_read(words: &[u16], rows: &mut [[u8; ROW_BYTES]; SLOTS]) -> Answer
    ensures { ReadsInto words.now rows.old result rows.new }
{
    subtitling_reader::read_into(words, rows)
}

// Writes a packet at the front of out.
#[unsafe(no_mangle)]
pub extern "C" fn captions_packet_write(
    counter: u32,
    slots: &[u8; LENT_SLOTS],
    rows: &[[u8; ROW_BYTES]; SLOTS],
    out: &mut [u16],
) -> Written
    ensures { Writes (packet_in counter slots.now) rows.now out.old result out.new }
{
    subtitling_writer::write_from(packet_of(counter, slots), rows, out)
}

pub(crate) fn packet_of(counter: u32, bytes: &[u8]) -> Packet
    requires { length bytes.now ≡ 20 }
    ensures { result ≡ packet_in counter bytes.now }
{
    let mut slots = [sdp::slot_of(0); SLOTS];
    for i in 0..SLOTS {
        slots[i] = slot_from(bytes, i);
    }
    Packet { counter, slots }
}

// The slot of index i.
#[tactic(auto, unfolding(crate::specs::Calls::slot_in))]
fn slot_from(bytes: &[u8], i: usize) -> Slot
    requires { 4 * i + 4 ≤ length bytes.now }
    ensures { result ≡ slot_in (drop (4 * i) bytes.now) }
{
    let at = LENT_SLOT * i;
    Slot {
        full: bytes[at],
        line: bytes[at + 1],
        reserved: bytes[at + 2],
        field: OddEven(bytes[at + 3]),
    }
}
