// Runs the vectors of multipackets that come on standard input, and prints what differs and how many ran.
// The crate `vectors` has the form of a line; `conformance_area` runs those of areas, `conformance` those of packets and payloads, `conformance_film` those of film,
// `conformance_pes` those of data fields.
#![tactic(auto)]

mod heads;
mod reading;
mod value;
mod words;
mod writing;

use std::io;
use vectors::Operation;

// An input must fit: 32,768 words.
const INPUT_ROOM: usize = 65536;

// An expectation and an answer must each fit: 9 bytes and an output of 20,480 words.
pub(crate) const ROOM: usize = 40969;

fn main(rt: HostRuntime) -> io::Result<()> {
    let mut operations = [
        Operation::new("multi-read", "multi read", reading::outcome),
        Operation::new("multi-write", "multi write", writing::outcome),
    ];
    let mut input = [0u8; INPUT_ROOM];
    let mut expected = [0u8; ROOM];
    vectors::run(
        rt.stdin(),
        rt.stdout(),
        &mut operations,
        &mut input,
        &mut expected,
    )
}
