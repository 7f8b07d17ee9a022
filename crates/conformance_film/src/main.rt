// Runs the vectors of film that come on standard input, and prints what differs and how many ran.
// The crate `vectors` has the form of a line; `conformance_area` runs those of areas, `conformance` those of packets and payloads.
#![tactic(auto)]

mod film_run;

use std::io;
use vectors::Operation;

// An input must fit: 775 calls.
const INPUT_ROOM: usize = 131072;

// An expectation must fit: 780 answers and the state.
const ROOM: usize = 16384;

fn main(rt: HostRuntime) -> io::Result<()> {
    let mut operations = [Operation::new("film-run", "film run", film_run::outcome)];
    let mut input = [0u8; INPUT_ROOM];
    let mut expected = [0u8; ROOM];
    vectors::run(
        rt.stdin(),
        rt.stdout(),
        &mut operations,
        &mut input,
        &mut expected,
    )
}
