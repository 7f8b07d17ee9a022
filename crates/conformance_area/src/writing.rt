// The vectors of writing a unit, by itself or into an area. INPUT is room (4 bytes), the unit's value, then the area that the unit goes into, if any.
// EXPECTED is number (1), place (4), len (4), then what the call writes. Behind that the output must hold what it held before.
use crate::{ROOM, ga94_value, unit_value};
use vectors::{Outcome, writes};

pub(crate) fn area_replace(input: &[u8], expected: &[u8]) -> Outcome {
    let Some(area) = input.get(unit_value::END..) else {
        return Outcome::Unreadable;
    };
    let unit = unit_value::unit_of(input);
    writes::<ROOM, _>(
        input,
        expected,
        |out| picture_writer::replace(area, unit, out),
    )
}

pub(crate) fn ga94_replace(input: &[u8], expected: &[u8]) -> Outcome {
    let Some(area) = input.get(ga94_value::END..) else {
        return Outcome::Unreadable;
    };
    writes::<ROOM, _>(input, expected, |out| ga94_value::replace(input, area, out))
}

pub(crate) fn ga94_write(input: &[u8], expected: &[u8]) -> Outcome {
    if input.len() < ga94_value::END {
        return Outcome::Unreadable;
    }
    writes::<ROOM, _>(input, expected, |out| ga94_value::write(input, out))
}

pub(crate) fn unit_write(input: &[u8], expected: &[u8]) -> Outcome {
    if input.len() < unit_value::END {
        return Outcome::Unreadable;
    }
    let unit = unit_value::unit_of(input);
    writes::<ROOM, _>(input, expected, |out| picture_writer::write(unit, out))
}
