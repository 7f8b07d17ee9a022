// The value of a GA94 unit in an input: behind room (4 bytes), process_em_data_flag, process_cc_data_flag, additional_data_flag, em_data, n and z (4 each),
// then 31 records of 4 bytes; and the calls that take one.
use ga94::{LENT_RECORDS, Numbers};
use refusal::Written;

// Where the records begin.
const RECORDS: usize = 28;

// What follows the value begins here.
pub(crate) const END: usize = RECORDS + LENT_RECORDS;

pub(crate) fn write(input: &[u8], out: &mut [u8]) -> Written {
    let records = records_of(input);
    ga94_picture_writer::write_from(numbers_of(input), &records, out)
}

pub(crate) fn replace(input: &[u8], area: &[u8], out: &mut [u8]) -> Written {
    let records = records_of(input);
    ga94_picture_writer::replace_from(area, numbers_of(input), &records, out)
}

fn numbers_of(input: &[u8]) -> Numbers {
    Numbers {
        process_em_data_flag: vectors::long(input, 4),
        process_cc_data_flag: vectors::long(input, 8),
        additional_data_flag: vectors::long(input, 12),
        em_data: vectors::long(input, 16),
        n: vectors::long(input, 20) as usize,
        z: vectors::long(input, 24) as usize,
    }
}

fn records_of(input: &[u8]) -> [u8; LENT_RECORDS] {
    let mut records = [0u8; LENT_RECORDS];
    vectors::take(input, RECORDS, &mut records);
    records
}
