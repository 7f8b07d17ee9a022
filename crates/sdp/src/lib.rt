// The subtitling distribution packet of RDD 8 (OP-47): five slots of teletext, and what can be held in them, apart from the ancillary packet that
// carries them.
//
// Normative references: docs/RULES.md, "Subtitling packet"; document 002 (RDD 8), clause 5.
#![tactic(auto)]

mod holding;
mod user;

use fields::OddEven;
pub use holding::{count, descriptor, judge_slot, slot_holds, slot_of};
pub use user::{byte_sum, judge_line};

pub const SLOTS: usize = 5;

pub const ROW_BYTES: usize = 42;

// The user words: 51, 15, LENGTH, 02, five descriptors, the structures, the footer and the SDP checksum.
pub const DESCRIPTORS: usize = 4;

pub const STRUCTURES: usize = 9;

pub const STRUCTURE_WORDS: usize = 45;

// One slot's numbers: 1 full or 0 empty, and what its descriptor says (002, 5.4.2). Numbers, since C callers hand in any, which 15 refuses.
#[repr(C)]
#[derive(Clone, Copy)]
pub struct Slot {
    pub full: u8,
    pub line: u8,
    pub reserved: u8,
    pub field: OddEven,
}

// A packet's numbers. Beside them travel the slots' rows, an array of five 42-byte arrays.
#[repr(C)]
#[derive(Clone, Copy)]
pub struct Packet {
    pub counter: u32,
    pub slots: [Slot; SLOTS],
}
