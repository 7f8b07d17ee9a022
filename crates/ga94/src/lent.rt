// Records as bytes in a lent array.
ghost use Rattle.std.specs.Prelude.{◌≡◌, ◌+◌, ◌*◌, ◌≤◌, length, get_or};
ghost use Rattle.ga94.specs.Value.{blank as Value·blank};
ghost use Rattle.ga94.specs.Lent.{lent_records, stored_at};

use crate::{LENT_RECORD, LENT_RECORDS, MAX_RECORDS, Record};

// The record of index i, counted from 0. Beyond the last place it is all zero.
pub fn record_in(records: &[u8; LENT_RECORDS], i: usize) -> Record
    ensures { result ≡ get_or (lent_records records.now) i Value·blank }
{
    if MAX_RECORDS <= i {
        return blank();
    }
    let at = LENT_RECORD * i;
    Record {
        cc_valid: records[at],
        cc_type: records[at + 1],
        cc_data_1: records[at + 2],
        cc_data_2: records[at + 3],
    }
}

// Stores a record as the one of index i. Beyond the last place nothing is stored.
pub fn put_record(r: Record, i: usize, records: &mut [u8; LENT_RECORDS])
    ensures { records.new ≡ stored_at i r records.old }
{
    if MAX_RECORDS <= i {
        return;
    }
    let at = LENT_RECORD * i;
    records[at] = r.cc_valid;
    records[at + 1] = r.cc_type;
    records[at + 2] = r.cc_data_1;
    records[at + 3] = r.cc_data_2;
}

fn blank() -> Record
    ensures { result ≡ Value·blank }
{
    Record {
        cc_valid: 0,
        cc_type: 0,
        cc_data_1: 0,
        cc_data_2: 0,
    }
}
