// A picture's user data area: foreign units, and at most one caption unit of each kind.
//
// Normative references: docs/RULES.md, "Picture area" and "GA94"; document 001, 5.7; document 003, Table 3.
#![tactic(auto)]

mod area;
mod atsc;
mod content;
mod places;
mod reading;

pub use area::{read_area, read_old};
pub use atsc::ga94_read_into;
pub use content::Content;
pub use reading::{read, read_into};
use refusal::{Refusal, Verdict};
use scte20::CaptionUnit;

// What `read` answers: whether a caption unit stands in the area, and its value; or a refusal. Where no caption
// unit stands, and in a refusal, all else is zero.
// No Result and no Option: theorem `refused-zero` promises the zeros.
#[derive(Clone, Copy)]
pub struct Answer {
    pub refusal: Refusal,
    pub present: bool,
    pub unit: CaptionUnit,
}

// What `read_area` answers: the same, with the records in a lent array. T has the kind's numbers.
// No Result and no Option: theorem `read-into-as-read` promises the numbers of `read`'s answer, zeros too.
#[derive(Clone, Copy)]
pub struct Head<T> {
    pub refusal: Refusal,
    pub present: bool,
    pub numbers: T,
}

// What `ga94_read_into` answers.
pub type Ga94Head = Head<ga94::Numbers>;

// Which bytes of an area give way to a new unit: those from `start` up to `end`.
#[derive(Clone, Copy)]
pub struct Spot {
    pub start: usize,
    pub end: usize,
}

// What `read_old` answers: the area's verdict, and which bytes give way.
// No Result: `ReadsOld` promises the place beside a refusal too.
#[derive(Clone, Copy)]
pub struct Old {
    pub verdict: Verdict,
    pub spot: Spot,
}
