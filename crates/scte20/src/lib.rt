// SCTE 20 caption content: what a caption unit of a picture's user data holds behind its start code.
//
// Normative references: docs/RULES.md, "Picture area"; document 001, 5.4 to 5.8.
#![tactic(auto)]

mod lent;

use fields::DisplayField;
pub use lent::{bytes_of, narrow, nothing, numbers_of, put_record, record_in, unit_of};

pub const MAX_RECORDS: usize = 31;

// No body of an area's unit is longer.
pub const MAX_BYTES: usize = 16384;

// The bit at which the constructs begin, and how many bits each has.
pub const CONSTRUCTS: usize = 21;

pub const CONSTRUCT_BITS: usize = 26;

// non_real_time_video_count
pub const SAMPLED_BITS: usize = 4;

// A record in a lent array: five bytes, one for each number of a `Record` and in its order.
pub const LENT_RECORD: usize = 5;

pub const LENT_RECORDS: usize = 155;

// One construct (001, 5.8), its data bytes as line 21 has them.
#[derive(Clone, Copy)]
pub struct Record {
    pub cc_priority: u8,
    pub field_number: DisplayField,
    pub line_offset: u8,
    pub cc_data_1: u8,
    pub cc_data_2: u8,
}

// A unit's value: the reserved bits as they are, the flag, the first n of the records, and how many zero
// bytes of stuffing follow the content.
// A count beside the places: the library uses no heap, and `LegalCaptionUnit` and `stored`, which docs/MATRIX.md names, speak of both.
#[derive(Clone, Copy)]
pub struct CaptionUnit {
    pub reserved: u8,
    pub vbi_data_flag: u8,
    pub n: usize,
    pub records: [Record; MAX_RECORDS],
    pub z: usize,
}

// A unit's value without its records, which a lent array holds.
#[derive(Clone, Copy)]
pub struct Numbers {
    pub reserved: u8,
    pub vbi_data_flag: u8,
    pub n: usize,
    pub z: usize,
}

// What the rules need of the records before one: the latest's field and line, and how many records of that
// field have priority 0, no more than four of them counted.
#[derive(Clone, Copy)]
pub struct Last {
    pub field_number: DisplayField,
    pub line_offset: u8,
    pub urgent: u8,
}
