// Runs the vectors of picture areas and their units that come on standard input, and prints what differs and how many ran.
// The crate `vectors` has the form of a line; `conformance` runs those of packets and payloads.
#![tactic(auto)]

mod area_listing;
mod area_reading;
mod area_units;
mod ga94_reading;
mod ga94_value;
mod unit_value;
mod writing;

use std::io;
use vectors::Operation;

// An input must fit.
const INPUT_ROOM: usize = 131072;

// An expectation and an answer must each fit: the longest are those of an area of 4,096 units.
pub(crate) const ROOM: usize = 32773;

fn main(rt: HostRuntime) -> io::Result<()> {
    let mut operations = [
        Operation::new("area-cclist", "area cclist", area_listing::outcome),
        Operation::new("area-read", "area read", area_reading::outcome),
        Operation::new("area-replace", "area replace", writing::area_replace),
        Operation::new("area-units", "area units", area_units::outcome),
        Operation::new("ga94-read", "ga94 read", ga94_reading::outcome),
        Operation::new("ga94-replace", "ga94 replace", writing::ga94_replace),
        Operation::new("ga94-write", "ga94 write", writing::ga94_write),
        Operation::new("unit-write", "unit write", writing::unit_write),
    ];
    let mut input = [0u8; INPUT_ROOM];
    let mut expected = [0u8; ROOM];
    vectors::run(
        rt.stdin(),
        rt.stdout(),
        &mut operations,
        &mut input,
        &mut expected,
    )
}
