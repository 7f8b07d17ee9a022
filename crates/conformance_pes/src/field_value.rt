// A data field's value in an input, behind the room: data_identifier (4 bytes), n (4), then 31 units of 45 bytes.
use pes::LENT_UNITS;
use refusal::Written;

// Where the units begin.
const UNITS: usize = 12;

pub(crate) const END: usize = UNITS + LENT_UNITS;

pub(crate) fn write(input: &[u8], out: &mut [u8]) -> Written {
    let data_identifier = vectors::long(input, 4);
    let n = vectors::long(input, 8) as usize;
    let mut units = [0u8; LENT_UNITS];
    vectors::take(input, UNITS, &mut units);
    pes_writer::write_from(data_identifier, n, &units, out)
}
