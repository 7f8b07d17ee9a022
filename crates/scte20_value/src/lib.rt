// Whether the value of an SCTE 20 caption unit can be written.
//
// Normative references: docs/RULES.md, "Picture area" and "Order of checks".
#![tactic(auto)]

ghost use Rattle.std.specs.Prelude.{◌≡◌, ◌≤◌, ◌<◌, true, [], take};
ghost use Rattle.refusal.specs.Verdict.{Accepted};
ghost use Rattle.scte20.specs.Lent.{lent_records, unit_in};
ghost use Rattle.scte20.specs.Writing.{whole_verdict, range_verdict, records_verdict, value_verdict};

use refusal::{Excess, Item, Reason, Verdict};
use scte20::{CONSTRUCT_BITS, CONSTRUCTS, LENT_RECORDS, MAX_BYTES, MAX_RECORDS, Numbers, Record};

// Whether a value can be written. Where it answers no, nothing may be wrong: `judge_value` tells.
pub fn is_value(v: Numbers, records: &[u8; LENT_RECORDS]) -> bool
    ensures { result ≡ true → value_verdict (unit_in v records.now) ≡ Accepted }
{
    v.n <= MAX_RECORDS
        && are_records(v.n, records)
        && v.reserved <= 127
        && v.z <= MAX_BYTES
        // Reserved 4 with flag 1 and reserved 5 with flag 0 make the types of a data group.
        && match v.vbi_data_flag {
            0 => v.n == 0 && v.reserved != 5,
            1 => v.reserved != 4,
            _ => false,
        }
}

// The same of the first n records. Field and line make one number, which rises from record to record, and from 32 on since no record has field 0.
fn are_records(n: usize, records: &[u8; LENT_RECORDS]) -> bool
    requires { n ≤ 31 }
    ensures { result ≡ true → records_verdict [] 21 (take n (lent_records records.now)) ≡ Accepted }
{
    let mut place: u32 = 31;
    let mut urgent: u32 = 0;
    for i in 0..n {
        let record = scte20::record_in(records, i);
        if 3 < record.cc_priority {
            return false;
        }
        if 31 < record.line_offset {
            return false;
        }
        if 3 < record.field_number.0 {
            return false;
        }
        let field = 32 * u32::from(record.field_number.0);
        let next = field + u32::from(record.line_offset);
        if next <= place {
            return false;
        }
        // Up to four lines of a display field may have priority 0 (001, 5.8.1).
        let kept = if place < field { 0 } else { urgent };
        urgent = kept + u32::from(record.cc_priority == 0);
        if 4 < urgent {
            return false;
        }
        place = next;
    }
    true
}

// The value's own checks: those of the whole value, then each record's before the next.
pub fn judge_value(v: Numbers, records: &[u8; LENT_RECORDS]) -> Verdict
    ensures { result ≡ value_verdict (unit_in v records.now) }
{
    judge_whole(v)?;
    let mut last = scte20_rules::none_yet();
    for i in 0..v.n {
        let record = scte20::record_in(records, i);
        let at = CONSTRUCTS + CONSTRUCT_BITS * i;
        judge_range(record, at)?;
        scte20_rules::judge_record(last, record, at as u32)?;
        last = scte20_rules::after(last, record);
    }
    Ok(())
}

// 15 of the whole value. It does not look at the records.
#[tactic(auto, unfolding(scte20::specs::Writing::whole_verdict))]
fn judge_whole(v: Numbers) -> Verdict
    ensures { result ≡ whole_verdict (unit_in v []) }
{
    if MAX_RECORDS < v.n {
        return Err((Reason::Unholdable(Excess::Count), Item::Whole));
    }
    if 127 < v.reserved {
        return Err((Reason::Unholdable(Excess::Reserved), Item::Whole));
    }
    if 1 < v.vbi_data_flag {
        return Err((Reason::Unholdable(Excess::Flag), Item::Whole));
    }
    if MAX_BYTES < v.z {
        return Err((Reason::Unholdable(Excess::Stuffing), Item::Whole));
    }
    if v.vbi_data_flag == 0 && v.n != 0 {
        return Err((Reason::Unholdable(Excess::FlagWithRecords), Item::Whole));
    }
    // Behind 03 these pairs make 09 and 0A, the types of a data group: the unit would be foreign.
    if v.reserved == 4 && v.vbi_data_flag == 1 {
        return Err((Reason::Unholdable(Excess::GroupType), Item::Whole));
    }
    if v.reserved == 5 && v.vbi_data_flag == 0 {
        return Err((Reason::Unholdable(Excess::GroupType), Item::Whole));
    }
    Ok(())
}

// 15 of a record whose construct would begin at bit `at`.
#[tactic(auto, unfolding(scte20::specs::Writing::range_verdict))]
fn judge_range(r: Record, at: usize) -> Verdict
    requires { at < 1048576 }
    ensures { result ≡ range_verdict at r }
{
    if 3 < r.cc_priority {
        return Err((Reason::Unholdable(Excess::Priority), Item::Bit(at)));
    }
    if 3 < r.field_number.0 {
        return Err((Reason::Unholdable(Excess::FieldNumber), Item::Bit(at + 2)));
    }
    if 31 < r.line_offset {
        return Err((Reason::Unholdable(Excess::LineOffset), Item::Bit(at + 4)));
    }
    Ok(())
}
