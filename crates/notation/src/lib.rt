// A caption unit's value in words, as it is typed to `ccreplace`: reserved, flag and z, then each record as a line of `cclist` has it.
#![tactic(auto)]

mod numbers;
mod records;
mod words;

ghost use Rattle.std.specs.Prelude.{◌≡◌};
ghost use Rattle.notation.specs.Value.{meant_of};

use scte20::{CaptionUnit, MAX_RECORDS, Record};

// A word of a text: its first character, and the first behind it.
#[derive(Clone, Copy)]
struct Word {
    start: usize,
    end: usize,
}

// What the words behind the first three tell: how many records, and those that have a place.
#[derive(Clone, Copy)]
struct Entries {
    n: usize,
    records: [Record; MAX_RECORDS],
}

// The value that a text tells, where it can be read.
pub fn unit_of(text: &[u8]) -> Option<CaptionUnit>
    ensures { result ≡ meant_of text.now }
{
    let (reserved, flag_at) = numbers::decimal_at(text, 0)?;
    let (flag, z_at) = numbers::decimal_at(text, flag_at)?;
    let (z, at) = numbers::decimal_at(text, z_at)?;
    let entries = records::entries_from(text, at)?;
    let records = entries.records;
    Some(CaptionUnit {
        reserved: scte20::narrow(reserved),
        vbi_data_flag: scte20::narrow(flag),
        n: entries.n,
        records,
        z,
    })
}
