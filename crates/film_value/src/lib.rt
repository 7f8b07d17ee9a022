// Whether a picture can be carried, and what its display fields then bring.
//
// Normative references: docs/RULES.md, "Film" and "Order of checks".
#![tactic(auto)]

ghost use Rattle.std.specs.Prelude.{◌≡◌, ◌≤◌, true, [], get_or};
ghost use Rattle.refusal.specs.Verdict.{Accepted};
ghost use Rattle.scte20.specs.Value.{blank as Value·blank, held};
ghost use Rattle.scte20.specs.Lent.{lent_records, unit_in};
ghost use Rattle.scte20.specs.Writing.{whole_verdict};
ghost use Rattle.film.specs.Frames.{half_of};
ghost use Rattle.film.specs.Calls.{picture_verdict, repeat_verdict, line_verdict};
ghost use Rattle.film_value.specs.Inside.{Stands, slot_if, Gathers};

use fields::DisplayField;
use film::{Half, Shown};
use refusal::{Excess, Item, Reason, Verdict};
use scte20::{CONSTRUCT_BITS, CONSTRUCTS, LENT_RECORDS, MAX_BYTES, Numbers};

// What each display field of a picture that is carried brings to its side of a frame.
#[derive(Clone, Copy)]
pub struct Halves {
    pub one: Half,
    pub two: Half,
    pub three: Half,
}

// RULES, "Order of checks": 15 of the set line, the value's own 15, 7, 8, 9, then 21 of any record, then 22.
pub fn judge(how: Shown, v: Numbers, records: &[u8; LENT_RECORDS]) -> Verdict
    ensures { result ≡ picture_verdict how (unit_in v records.now) }
{
    if 31 < how.line_offset {
        return Err((Reason::Unholdable(Excess::SetLine), Item::Whole));
    }
    scte20_value::judge_value(v, records)?;
    judge_repeat(how.repeat_first_field, v, records)?;
    judge_lines(how.line_offset, v, records)
}

// 21: a record of display field 3, where the picture shows two.
fn judge_repeat(repeat_first_field: bool, v: Numbers, records: &[u8; LENT_RECORDS]) -> Verdict
    requires { v.n ≤ 31 }
    ensures { result ≡ repeat_verdict repeat_first_field 21 (held (unit_in v records.now)).records }
{
    if repeat_first_field {
        return Ok(());
    }
    for i in 0..v.n {
        let record = scte20::record_in(records, i);
        if record.field_number == DisplayField(3) {
            let at = CONSTRUCTS + CONSTRUCT_BITS * i;
            return Err((Reason::NotShown, Item::Bit(at + 2)));
        }
    }
    Ok(())
}

// 22: a record on another line.
fn judge_lines(line_offset: u8, v: Numbers, records: &[u8; LENT_RECORDS]) -> Verdict
    requires { v.n ≤ 31 }
    ensures { result ≡ line_verdict line_offset 21 (held (unit_in v records.now)).records }
{
    for i in 0..v.n {
        let record = scte20::record_in(records, i);
        if record.line_offset != line_offset {
            let at = CONSTRUCTS + CONSTRUCT_BITS * i;
            return Err((Reason::OtherLine, Item::Bit(at + 4)));
        }
    }
    Ok(())
}

// What the display fields bring, gathered in one pass. The records of a picture that is carried are all on the set line, so that their fields
// rise from each to the next: one record at most for each display field, in order. Where it answers None, the picture may be one that is carried.
pub fn gather(how: Shown, v: Numbers, records: &[u8; LENT_RECORDS]) -> Option<Halves>
    ensures { Gathers how (unit_in v records.now) result }
{
    let line = how.line_offset;
    if 31 < line || !is_whole(v) {
        return None;
    }
    let n = v.n;
    let one = is_at(true, DisplayField(1), line, n, records, 0);
    let i = usize::from(one);
    let two = is_at(true, DisplayField(2), line, n, records, i);
    let j = i + usize::from(two);
    let three = is_at(how.repeat_first_field, DisplayField(3), line, n, records, j);
    if j + usize::from(three) != n {
        return None;
    }
    Some(Halves {
        one: half_in(one, records, 0),
        two: half_in(two, records, i),
        three: half_in(three, records, j),
    })
}

// 15 of the whole value.
fn is_whole(v: Numbers) -> bool
    ensures { result ≡ true → whole_verdict (unit_in v []) ≡ Accepted }
{
    if 3 < v.n || MAX_BYTES < v.z || 127 < v.reserved {
        return false;
    }
    match v.vbi_data_flag {
        0 => v.n == 0 && v.reserved != 5,
        1 => v.reserved != 4,
        _ => false,
    }
}

// Whether record i of the first n is the one of this display field, which is shown.
fn is_at(
    shown: bool,
    field: DisplayField,
    line: u8,
    n: usize,
    records: &[u8; LENT_RECORDS],
    i: usize,
) -> bool
    ensures { result ≡ true → Stands shown field.0 line n i records.now }
{
    if !shown || n <= i {
        return false;
    }
    let record = scte20::record_in(records, i);
    record.field_number == field && record.cc_priority <= 3 && record.line_offset == line
}

// What a display field brings, whose record is the one of index i where there is one.
fn half_in(there: bool, records: &[u8; LENT_RECORDS], i: usize) -> Half
    ensures { result ≡ half_of (slot_if there (get_or (lent_records records.now) i Value·blank)) }
{
    if !there {
        return film::half_of(None);
    }
    let record = scte20::record_in(records, i);
    film::half_of(Some((record.cc_data_1, record.cc_data_2)))
}
