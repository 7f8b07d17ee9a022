// What the vector programs share: they read encoded vectors, one a line, run them, and print what
// differs and how many ran.
//
//     OPERATION NAME INPUT EXPECTED
//
// The fields are separated by one space. INPUT and EXPECTED are bytes in upper-case hex; a byte
// followed by `*NNNN`, four hex digits, stands for that byte so many times; `-` is no bytes. A `!`
// directly before OPERATION marks a vector that is wrong on purpose, and must be found to differ.
#![tactic(auto)]

mod bytes;
mod cells;
mod hex;
mod line;
mod lines;
mod running;
mod tally;
mod words;
mod writing;

pub use bytes::{byte, holds, number, put, put_number, put_refusal, take};
pub use cells::{Cell, pattern};
pub use hex::{decode, digit};
pub use line::{field, fields, find, is_wrong, unmarked};
pub use lines::{Kind, Line, Lines, next};
pub use running::{Operation, Step, run};
pub use tally::{Outcome, Tally, judged, print_outcome, print_tally, print_wrong};
pub use words::{long, put_word, take_words, word};
pub use writing::writes;
