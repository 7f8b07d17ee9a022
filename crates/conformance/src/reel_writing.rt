// The vectors of writing a reel. INPUT is flags (1 byte), size (4), room (4), then the run of units, 7 bytes each.
// EXPECTED is number (1), place (4), len (4), then the whole output as the call leaves it.
use crate::payload_writing::written;
use vectors::Outcome;

// Before the units of an input.
const HEAD: usize = 9;

// The units are lent where they stand in the input, and end with it.
pub(crate) fn outcome(input: &[u8], expected: &[u8]) -> Outcome {
    if input.len() < HEAD {
        return Outcome::Unreadable;
    }
    let flags = input[0];
    let size = vectors::number(&input[1..]);
    let units = &input[HEAD..];
    written(vectors::number(&input[5..]), expected, |out| {
        line21_writer::write_reel(flags, size, units, out)
    })
}
