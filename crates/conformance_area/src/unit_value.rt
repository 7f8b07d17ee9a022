// The value of an SCTE 20 unit in an input: behind room (4 bytes), reserved (1), flag (1), n (4), z (4), then 31 records of 5 bytes.
ghost use Rattle.std.specs.Prelude.{◌<◌};

use fields::DisplayField;
use scte20::{CaptionUnit, MAX_RECORDS, Record};

// Where the records begin.
const RECORDS: usize = 14;

// What follows the value begins here.
pub(crate) const END: usize = RECORDS + 5 * MAX_RECORDS;

pub(crate) fn unit_of(input: &[u8]) -> CaptionUnit {
    let mut records = [record_at(input, RECORDS); MAX_RECORDS];
    for (i, record) in records.iter_mut().enumerate() {
        *record = record_at(input, RECORDS + 5 * i);
    }
    CaptionUnit {
        reserved: vectors::byte(input, 4),
        vbi_data_flag: vectors::byte(input, 5),
        n: vectors::long(input, 6) as usize,
        records,
        z: vectors::long(input, 10) as usize,
    }
}

fn record_at(input: &[u8], at: usize) -> Record
    requires { at < 4096 }
{
    let field_number = DisplayField(vectors::byte(input, at + 1));
    Record {
        cc_priority: vectors::byte(input, at),
        field_number,
        line_offset: vectors::byte(input, at + 2),
        cc_data_1: vectors::byte(input, at + 3),
        cc_data_2: vectors::byte(input, at + 4),
    }
}
