// GA94 caption content: what a unit of ATSC picture user data holds behind its start code.
//
// Normative references: docs/RULES.md, "GA94"; document 003, Table 3; ATSC A/53.
#![tactic(auto)]

mod lent;

pub use lent::{put_record, record_in};

pub const MAX_RECORDS: usize = 31;

// No body of an area's unit is longer.
pub const MAX_BYTES: usize = 16384;

// The byte at which the constructs begin: behind ATSC_identifier, user_data_type_code, the flags with cc_count, and em_data.
pub const CONSTRUCTS: usize = 7;

pub const CONSTRUCT_BYTES: usize = 3;

// A record in a lent array: four bytes, one for each number of a `Record` and in its order.
pub const LENT_RECORD: usize = 4;

pub const LENT_RECORDS: usize = 124;

// One construct, its data bytes as they are sent.
#[derive(Clone, Copy)]
pub struct Record {
    pub cc_valid: u8,
    pub cc_type: u8,
    pub cc_data_1: u8,
    pub cc_data_2: u8,
}

// A unit's value without its records, which a lent array holds: the three flags and em_data as they are, how many
// records there are, and how many zero bytes of stuffing follow the content.
#[derive(Clone, Copy)]
pub struct Numbers {
    pub process_em_data_flag: u32,
    pub process_cc_data_flag: u32,
    pub additional_data_flag: u32,
    pub em_data: u32,
    pub n: usize,
    pub z: usize,
}
