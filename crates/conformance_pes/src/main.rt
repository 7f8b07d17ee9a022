// Runs the vectors of PES data fields that come on standard input, and prints what differs and how many ran.
// The crate `vectors` has the form of a line; `conformance_area` runs those of areas, `conformance` those of packets and payloads, `conformance_film` those of film.
#![tactic(auto)]

mod field_value;
mod packet_value;
mod packet_words;
mod reading;
mod writing;

use std::io;
use vectors::Operation;

// An input must fit: a room and 32,768 words.
const INPUT_ROOM: usize = 65540;

// An expectation and an answer must each fit: 9 bytes and an output of 20,480 bytes.
pub(crate) const ROOM: usize = 20489;

fn main(rt: HostRuntime) -> io::Result<()> {
    let mut operations = [
        Operation::new("pes-read", "pes read", reading::outcome),
        Operation::new("pes-write", "pes write", writing::write),
        Operation::new("pes-convert", "pes convert", writing::convert),
        Operation::new(
            "pes-convertvalue",
            "pes convertvalue",
            writing::convert_value,
        ),
    ];
    let mut input = [0u8; INPUT_ROOM];
    let mut expected = [0u8; ROOM];
    vectors::run(
        rt.stdin(),
        rt.stdout(),
        &mut operations,
        &mut input,
        &mut expected,
    )
}
