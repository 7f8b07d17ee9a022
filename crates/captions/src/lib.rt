// The C interface (c/captions.h): read, write, replace and convert, over plain numbers and lent memory. Each function hands on to its carriage's own.
//
// Normative references: docs/RULES.md.
#![tactic(auto)]

mod area;
mod atsc;
mod dvb;
mod frames;
mod multipacket;
mod packet;
mod payload;
mod reels;

pub use area::{captions_area_read, captions_area_replace, captions_unit_write};
pub use atsc::{captions_ga94_read, captions_ga94_replace, captions_ga94_write};
pub use dvb::{
    captions_pes_convert, captions_pes_convert_value, captions_pes_read, captions_pes_write,
};
pub use frames::{captions_film_close, captions_film_picture};
pub use multipacket::{captions_multi_read, captions_multi_write};
pub use packet::{captions_packet_read, captions_packet_write};
pub use payload::{captions_payload_read, captions_payload_write};
pub use reels::{captions_reel_write, captions_reel_write_bytes};
use refusal::Refusal;

// What `captions_area_read` answers, in the layout of `captions_unit` in the header.
#[repr(C)]
#[derive(Clone, Copy)]
pub struct UnitHead {
    pub refusal: Refusal,
    pub present: bool,
    pub reserved: u8,
    pub vbi_data_flag: u8,
    pub n: usize,
    pub z: usize,
}

// What `captions_ga94_read` answers, in the layout of `captions_ga94_unit` in the header.
#[repr(C)]
#[derive(Clone, Copy)]
pub struct Ga94Head {
    pub refusal: Refusal,
    pub present: bool,
    pub process_em_data_flag: u32,
    pub process_cc_data_flag: u32,
    pub additional_data_flag: u32,
    pub em_data: u32,
    pub n: usize,
    pub z: usize,
}
