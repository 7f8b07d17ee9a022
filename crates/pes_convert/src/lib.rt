// A subtitling packet (RDD 8, OP-47) carried into a PES data field (EN 300 472).
//
// Normative references: docs/RULES.md, "PES data field"; document 002 (RDD 8), clause 5; EN 300 472.
#![tactic(auto)]

ghost use Rattle.std.specs.Prelude.{◌≡◌, ◌+◌, ◌*◌, ◌≤◌, ◌<◌, [], ◌∷◌, map, length, get_or};
ghost use Rattle.lists.specs.Each.{Each};
ghost use Rattle.lists.specs.Room.{over};
ghost use Rattle.refusal.specs.Verdict.{Accepted};
ghost use Rattle.refusal.specs.Answers.{Wrote};
ghost use Rattle.bits.specs.Bits.{reversed};
ghost use Rattle.bits.specs.Table.{Reverses};
ghost use Rattle.sdp.specs.Value.{LegalSlot, Row, Typed, held};
ghost use Rattle.pes.specs.Layout.{layout_units, layout};
ghost use Rattle.pes_convert.specs.Converting.{full_units, converted, own_verdict, convert_verdict, Converts, ConvertsValue};

use pes::{DATA_UNIT_LENGTH, FRAMING_CODE, UNIT_BYTES};
use refusal::{Item, Reason, Refusal, Verdict, Written};
use sdp::{Packet, ROW_BYTES, SLOTS};
use subtitling::MAX_WORDS;

const DATA_IDENTIFIER: u8 = 0x10;

const SUBTITLE_ID: u8 = 0x03;

// Converts a packet, and writes the data field at the front of out.
pub fn convert(words: &[u16], out: &mut [u8]) -> Written
    ensures { Converts words.now out.old result out.new }
{
    let mut rows = [[0; ROW_BYTES]; SLOTS];
    let answer = subtitling_reader::read_into(words, &mut rows);
    let refusal = answer.refusal;
    // By its number: an answer in the layout of C tells no more of a refusal.
    if refusal.number != 0 {
        return Written { refusal, len: 0 };
    }
    write_slots(answer.packet, &rows, out)
}

// Converts a packet's value, with its rows in a lent array.
pub fn convert_value(p: Packet, rows: &[[u8; ROW_BYTES]; SLOTS], out: &mut [u8]) -> Written
    ensures { ConvertsValue p rows.now out.old result out.new }
{
    let verdict = subtitling_writer::judge(p, rows, MAX_WORDS);
    let refusal = Refusal::from(verdict);
    if verdict.is_err() {
        return Written { refusal, len: 0 };
    }
    write_slots(p, rows, out)
}

// Writes the data field of a packet that was judged.
fn write_slots(p: Packet, rows: &[[u8; ROW_BYTES]; SLOTS], out: &mut [u8]) -> Written
    requires { own_verdict (held p rows.now) ≡ Accepted }
    ensures { Wrote (convert_verdict Accepted (held p rows.now) (length out.old)) (layout (converted (held p rows.now))) out.old result out.new }
{
    by_types(p, *rows);
    let verdict = judge_slots(p, rows, out.len());
    let refusal = Refusal::from(verdict);
    if verdict.is_err() {
        return Written { refusal, len: 0 };
    }
    out[0] = DATA_IDENTIFIER;
    let units = put_slots(p, rows, &mut out[1..]);
    Written {
        refusal,
        len: 1 + units,
    }
}

// What the types say, told of a lent array too: behind a reference an array tells how many rows it has, and not how long they are. It does
// nothing.
fn by_types(p: Packet, rows: [[u8; ROW_BYTES]; SLOTS])
    ensures { Typed p rows }
{}

// 7 of each full slot, in order; then 14.
fn judge_slots(p: Packet, rows: &[[u8; ROW_BYTES]; SLOTS], room: usize) -> Verdict
    requires { Typed p rows.now }
    ensures { result ≡ convert_verdict Accepted (held p rows.now) room }
{
    let mut size = 1;
    for i in 0..SLOTS {
        let slot = p.slots[i];
        if slot.full != 0 {
            pes::judge_line(slot.line, Item::Whole)?;
            size += UNIT_BYTES;
        }
    }
    if room < size {
        return Err((Reason::NoRoom, Item::Whole));
    }
    Ok(())
}

// Stores the units of the full slots, one behind the other, and answers how many bytes they are.
fn put_slots(p: Packet, rows: &[[u8; ROW_BYTES]; SLOTS], out: &mut [u8]) -> usize
    requires typed { Typed p rows.now }
    requires each { Each LegalSlot (held p rows.now).slots }
    requires in_bounds { length (layout_units (full_units (held p rows.now).slots)) ≤ length out.old }
    ensures value { result ≡ length (layout_units (full_units (held p rows.now).slots)) }
    ensures out_after { out.new ≡ over (layout_units (full_units (held p rows.now).slots)) out.old }
{
    let table = bits::reversed_bytes();
    let mut at = 0;
    for i in 0..SLOTS {
        let s = p.slots[i];
        if s.full != 0 {
            put_slot(s.field.0, s.line, &rows[i], &table, &mut out[at..]);
            at += UNIT_BYTES;
        }
    }
    at
}

// Stores the unit of a full slot: its field, its line and its row as they are, each byte of the row turned round.
fn put_slot(field: u8, line: u8, row: &[u8; ROW_BYTES], table: &[u8; 256], out: &mut [u8])
    requires reverses { Reverses table.now }
    requires field_bound { (field ≤ 1) × (line ≤ 31) }
    requires row_value { Row row.now }
    requires in_bounds { 46 ≤ length out.old }
    ensures { out.new ≡ over (0x03 ∷ 0x2C ∷ (192 + 32 * field + line) ∷ 0xE4 ∷ map reversed row.now) out.old }
{
    out[0] = SUBTITLE_ID;
    out[1] = DATA_UNIT_LENGTH;
    out[2] = 192 + 32 * field + line;
    out[3] = FRAMING_CODE;
    bits::look_up(row, table, &mut out[4..UNIT_BYTES]);
}
