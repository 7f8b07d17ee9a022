// The ISMA Line 21 RTP payload: what follows the RTP header.
//
// Normative references: docs/RULES.md, "Line 21 payload"; document 004, 3.2.1, Tables 1 and 2.
#![tactic(auto)]

mod lent;
mod reading;

pub use lent::{bytes_of, lent_bytes, unit_in};
pub use reading::{read, read_head, read_into, read_unit};
use refusal::Refusal;

pub const MAX_UNITS: usize = 291;

pub const UNIT_BYTES: usize = 5;

pub const MAX_BYTES: usize = 1456;

// A unit in a lent array: seven bytes, one for each number of an `AccessUnit` and in its order.
pub const LENT_UNIT: usize = 7;

pub const LENT_UNITS: usize = 2037;

// One access unit (004, Table 2). A field's data bytes are carried whatever its flag says.
#[repr(C)]
#[derive(Clone, Copy, Default)]
pub struct AccessUnit {
    pub cc_valid_1: u8,
    pub cc_valid_2: u8,
    pub padding: u8,
    pub field1_data1: u8,
    pub field1_data2: u8,
    pub field2_data1: u8,
    pub field2_data2: u8,
}

// A payload's value: the flags byte as it is, and the first m of the units.
#[derive(Clone, Copy)]
pub struct Payload {
    pub flags: u8,
    pub m: usize,
    pub units: [AccessUnit; MAX_UNITS],
}

// What `read` answers: the value, or a refusal and zeros. No Result: `Reads` promises the zeros.
#[derive(Clone, Copy)]
pub struct Answer {
    pub refusal: Refusal,
    pub payload: Payload,
}

// What `read_head` and `read_into` answer: the flags byte and how many units follow it, or a refusal and zeros.
// No Result: C has this layout.
#[repr(C)]
#[derive(Clone, Copy)]
pub struct Head {
    pub refusal: Refusal,
    pub flags: u8,
    pub m: usize,
}
