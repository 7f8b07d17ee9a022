// The words that tell a unit's records, five for each.
ghost use Rattle.std.specs.Prelude.{◌≤◌, length};
ghost use Rattle.notation.specs.Inside.{TakesEntries, TakesEntry};

use crate::{Entries, numbers, words};
use fields::DisplayField;
use scte20::{MAX_RECORDS, Record};

// The records that the words from `from` on tell. All are counted, and as many held as there are places.
pub(crate) fn entries_from(text: &[u8], from: usize) -> Option<Entries>
    requires { from ≤ length text.now }
    ensures { TakesEntries text.now from result }
{
    let nothing = scte20::nothing();
    let mut records = nothing.records;
    let mut n = 0;
    let mut at = words::skipped(text, from);
    // A while: words have no one length.
    while at < text.len() {
        let (record, end) = entry_at(text, at)?;
        if n < MAX_RECORDS {
            records[n] = record;
        }
        n += 1;
        at = words::skipped(text, end);
    }
    Some(Entries { n, records })
}

// The record that the next five words from `at` on tell, and the first character behind them.
fn entry_at(text: &[u8], at: usize) -> Option<(Record, usize)>
    requires { at ≤ length text.now }
    ensures { TakesEntry text.now at result }
{
    let (priority, field_at) = numbers::decimal_at(text, at)?;
    let (field, line_at) = numbers::decimal_at(text, field_at)?;
    let (line, data_1_at) = numbers::decimal_at(text, line_at)?;
    let (cc_data_1, data_2_at) = numbers::hex_at(text, data_1_at)?;
    let (cc_data_2, end) = numbers::hex_at(text, data_2_at)?;
    let record = Record {
        cc_priority: scte20::narrow(priority),
        field_number: DisplayField(scte20::narrow(field)),
        line_offset: scte20::narrow(line),
        cc_data_1,
        cc_data_2,
    };
    Some((record, end))
}
