// The multipacket of RDD 8 (OP-47): several ancillary data packets in one.
//
// Normative references: docs/RULES.md, "Multipacket"; document 002 (RDD 8), clause 6; SMPTE 291M.
#![tactic(auto)]

ghost use Rattle.std.specs.Prelude.{◌≡◌};
ghost use Rattle.multi.specs.Order.{subtitling_id, unplaced as Order·unplaced};

use refusal::{Item, Refusal, Verdict};

pub const MIN_WORDS: usize = 8;

pub const MAX_WORDS: usize = 262;

pub const MAX_USER_WORDS: usize = 255;

// The flag, DID, SDID, DC and the priority; the inner packets; CS.
pub const INNERS: usize = 7;

// LINE/FIELD, NDID, NSDID and NDC stand before an inner packet's user words, and NCS behind them.
pub const HEADER_WORDS: usize = 4;

pub const INNER_WORDS: usize = 5;

pub const MAX_INNERS: usize = 50;

// What tells of an inner packet in lent memory: line, field (1 odd, 0 even), DID, SDID, at which word its user words begin, and how many they are. No
// struct: the C interface lends it as six numbers.
pub const HEAD: usize = 6;

// What `multi_reader::read_into` answers: the priority and how many inner packets there are, or a refusal and zeros. No Result: C is given
// it as it stands.
#[repr(C)]
#[derive(Clone, Copy)]
pub struct Answer {
    pub refusal: Refusal,
    pub priority: u8,
    pub n: usize,
}

// Whether the bytes of DID and SDID are those of a subtitling packet.
pub fn is_subtitling(did: u16, sdid: u16) -> bool
    ensures { result ≡ subtitling_id did sdid }
{
    did == 0x43 && sdid == 0x02
}

// A verdict without its place, as writing tells it.
pub fn unplaced(verdict: Verdict) -> Verdict
    ensures { result ≡ Order·unplaced verdict }
{
    verdict.map_err(|(reason, _)| (reason, Item::Whole))
}
