// Records as bytes in a lent array.
ghost use Rattle.std.specs.Prelude.{◌≡◌, min, get_or};
ghost use Rattle.scte20.specs.Value.{blank as Value·blank, none, stored};
ghost use Rattle.scte20.specs.Lent.{records_bytes, lent_records, stored_at, unit_in, numbers_of};

use crate::{CaptionUnit, LENT_RECORD, LENT_RECORDS, MAX_RECORDS, Numbers, Record};
use fields::DisplayField;

// The record of index i, counted from 0. Beyond the last place it is all zero.
pub fn record_in(records: &[u8; LENT_RECORDS], i: usize) -> Record
    ensures { result ≡ get_or (lent_records records.now) i Value·blank }
{
    if MAX_RECORDS <= i {
        return blank();
    }
    let at = LENT_RECORD * i;
    let field_number = DisplayField(records[at + 1]);
    Record {
        cc_priority: records[at],
        field_number,
        line_offset: records[at + 2],
        cc_data_1: records[at + 3],
        cc_data_2: records[at + 4],
    }
}

// Stores a record as the one of index i. Beyond the last place nothing is stored.
pub fn put_record(r: Record, i: usize, records: &mut [u8; LENT_RECORDS])
    ensures { records.new ≡ stored_at i r records.old }
{
    if MAX_RECORDS <= i {
        return;
    }
    let at = LENT_RECORD * i;
    records[at] = r.cc_priority;
    records[at + 1] = r.field_number.0;
    records[at + 2] = r.line_offset;
    records[at + 3] = r.cc_data_1;
    records[at + 4] = r.cc_data_2;
}

// The struct that numbers and a lent array tell. No `From`: docs/MATRIX.md names this function, as it does the next two and `nothing`.
pub fn unit_of(v: Numbers, bytes: &[u8; LENT_RECORDS]) -> CaptionUnit
    ensures { result ≡ unit_in v bytes.now }
{
    let mut records = [blank(); MAX_RECORDS];
    for i in 0..MAX_RECORDS {
        records[i] = record_in(bytes, i);
    }
    CaptionUnit {
        reserved: v.reserved,
        vbi_data_flag: v.vbi_data_flag,
        n: v.n,
        records,
        z: v.z,
    }
}

// A struct's numbers.
pub fn numbers_of(unit: CaptionUnit) -> Numbers
    ensures { result ≡ numbers_of unit }
{
    Numbers {
        reserved: unit.reserved,
        vbi_data_flag: unit.vbi_data_flag,
        n: unit.n,
        z: unit.z,
    }
}

// A struct's records as bytes.
pub fn bytes_of(unit: CaptionUnit) -> [u8; LENT_RECORDS]
    ensures { result ≡ records_bytes unit.records }
{
    let mut bytes = [0; LENT_RECORDS];
    for i in 0..MAX_RECORDS {
        put_record(unit.records[i], i, &mut bytes);
    }
    bytes
}

// A number on its way into a value. One that a byte cannot hold becomes 255, which no item of the value allows: it is refused, not cut.
pub fn narrow(n: usize) -> u8
    ensures { result ≡ min n 255 }
{
    n.min(255) as u8
}

// No value: what an answer without one holds.
pub fn nothing() -> CaptionUnit
    ensures { result ≡ stored none }
{
    CaptionUnit {
        reserved: 0,
        vbi_data_flag: 0,
        n: 0,
        records: [blank(); MAX_RECORDS],
        z: 0,
    }
}

fn blank() -> Record
    ensures { result ≡ Value·blank }
{
    Record {
        cc_priority: 0,
        field_number: DisplayField(0),
        line_offset: 0,
        cc_data_1: 0,
        cc_data_2: 0,
    }
}
