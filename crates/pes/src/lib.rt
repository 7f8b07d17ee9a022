// The PES data field of EN 300 472: teletext lines for DVB.
//
// Normative references: docs/RULES.md, "PES data field"; EN 300 472.
#![tactic(auto)]

ghost use Rattle.std.specs.Prelude.{◌≡◌};
ghost use Rattle.pes.specs.Order.{teletext_id, known_id};
ghost use Rattle.pes.specs.Reading.{line_verdict};

use refusal::{Item, Reason, Refusal, Verdict};

pub const MAX_UNITS: usize = 31;

// A unit in the stream: data_unit_id, data_unit_length, and 44 bytes.
pub const UNIT_BYTES: usize = 46;

// A unit in a lent array: data_unit_id; then field_parity, line_offset and the row, or the bytes of stuffing.
pub const LENT_UNIT: usize = 45;

pub const LENT_UNITS: usize = 1395;

pub const DATA_UNIT_LENGTH: u8 = 0x2C;

pub const FRAMING_CODE: u8 = 0xE4;

pub const STUFFING_ID: u8 = 0xFF;

// What `pes_reader::read_into` answers: data_identifier and how many units follow it, or a refusal and zeros. No Result: C is given it as it stands.
#[repr(C)]
#[derive(Clone, Copy)]
pub struct Head {
    pub refusal: Refusal,
    pub data_identifier: u8,
    pub n: usize,
}

// Whether a data_unit_id is that of teletext.
pub fn is_teletext(id: u8) -> bool
    ensures { result ≡ teletext_id id }
{
    id == 0x02 || id == 0x03
}

// Whether a data_unit_id is that of teletext or of stuffing.
pub fn is_known(id: u8) -> bool
    ensures { result ≡ known_id id }
{
    is_teletext(id) || id == STUFFING_ID
}

// 7 of a line_offset.
pub fn judge_line(line: u8, item: Item) -> Verdict
    ensures { result ≡ line_verdict item line }
{
    refusal::judge_line::<7>(line, Reason::UnitLine, item)
}
