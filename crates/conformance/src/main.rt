// Runs the vectors of packets and payloads that come on standard input, and prints what differs and how many ran.
// The crate `vectors` has the form of a line; `conformance_area` runs those of areas.
#![tactic(auto)]

mod packet_reading;
mod packet_writing;
mod payload_reading;
mod payload_writing;
mod reel_writing;

use std::io;
use vectors::Operation;

// An input must fit.
const INPUT_ROOM: usize = 131072;

// An expectation and an answer must each fit: 9 bytes and an output of 20,480 words.
pub(crate) const ROOM: usize = 40969;

fn main(rt: HostRuntime) -> io::Result<()> {
    let mut operations = [
        Operation::new("packet-read", "packet read", packet_reading::outcome),
        Operation::new("packet-write", "packet write", packet_writing::outcome),
        Operation::new("payload-read", "payload read", payload_reading::outcome),
        Operation::new("payload-write", "payload write", payload_writing::outcome),
        Operation::new("payload-reel", "payload reel", reel_writing::outcome),
    ];
    let mut input = [0u8; INPUT_ROOM];
    let mut expected = [0u8; ROOM];
    vectors::run(
        rt.stdin(),
        rt.stdout(),
        &mut operations,
        &mut input,
        &mut expected,
    )
}
