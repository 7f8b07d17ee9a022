// Writing GA94 caption content: the body of a GA94 unit.
//
// Normative references: docs/RULES.md, "GA94" and "Order of checks"; document 003, Table 3.
#![tactic(auto)]

ghost use Rattle.std.specs.Prelude.{◌≡◌, true, ◌+◌, ◌*◌, ◌/◌, ◌%◌, ◌≤◌, ◌<◌, [], ◌∷◌, length, get_or, take};
ghost use Rattle.lists.specs.Flat.{flat};
ghost use Rattle.lists.specs.Room.{over, over_at};
ghost use Rattle.refusal.specs.Verdict.{Accepted};
ghost use Rattle.ga94.specs.Value.{held};
ghost use Rattle.ga94.specs.Layout.{construct_bytes, layout};
ghost use Rattle.ga94.specs.Lent.{lent_records, unit_in};
ghost use Rattle.ga94.specs.Writing.{whole_verdict, range_verdict, records_verdict, value_verdict, Writes};

use ga94::{
    CONSTRUCT_BYTES, CONSTRUCTS, LENT_RECORD, LENT_RECORDS, MAX_BYTES, MAX_RECORDS, Numbers, Record,
};
use refusal::{Excess, Item, Judged, Reason, Verdict};

// The bit at which the constructs begin, and how many bits each has.
const FIRST_BIT: usize = 56;

const CONSTRUCT_BITS: usize = 24;

// Writes the body of the unit that numbers and a lent array tell, into out from index `before` on. Judged is the whole result,
// which has `before` bytes in front of the body and `after` bytes behind it. Answers how many bytes the body has.
pub fn write_from(
    v: Numbers,
    records: &[u8; LENT_RECORDS],
    before: usize,
    after: usize,
    out: &mut [u8],
) -> Judged<usize>
    ensures { Writes (unit_in v records.now) before after out.old result out.new }
{
    judge_value(v, records)?;
    let len = CONSTRUCTS + CONSTRUCT_BYTES * v.n + 1 + v.z;
    refusal::judge_fit(MAX_BYTES, before, len, after, out.len())?;
    put(v, records, &mut out[before..before + len]);
    Ok(len)
}

// The value's own checks: those of the whole value, the third flag, then each record.
fn judge_value(v: Numbers, records: &[u8; LENT_RECORDS]) -> Verdict
    ensures { result ≡ value_verdict (unit_in v records.now) }
{
    judge_whole(v)?;
    if v.additional_data_flag != 0 {
        return Err((Reason::AdditionalData, Item::Whole));
    }
    let n = v.n;
    if are_in_range(records, n) {
        return Ok(());
    }
    for i in 0..n {
        judge_range(ga94::record_in(records, i), FIRST_BIT + CONSTRUCT_BITS * i)?;
    }
    Ok(())
}

// 15 of the whole value. It does not look at the records.
fn judge_whole(v: Numbers) -> Verdict
    ensures { result ≡ whole_verdict (unit_in v []) }
{
    if MAX_RECORDS < v.n {
        return Err((Reason::Unholdable(Excess::Count), Item::Whole));
    }
    if 1 < v.process_em_data_flag {
        return Err((Reason::Unholdable(Excess::Flag), Item::Whole));
    }
    if 1 < v.process_cc_data_flag {
        return Err((Reason::Unholdable(Excess::Flag), Item::Whole));
    }
    if 1 < v.additional_data_flag {
        return Err((Reason::Unholdable(Excess::Flag), Item::Whole));
    }
    if 255 < v.em_data {
        return Err((Reason::Unholdable(Excess::EmData), Item::Whole));
    }
    if MAX_BYTES < v.z {
        return Err((Reason::Unholdable(Excess::Stuffing), Item::Whole));
    }
    Ok(())
}

// 15 of a record whose construct would begin at bit `at`.
fn judge_range(r: Record, at: usize) -> Verdict
    requires { at < 1048576 }
    ensures { result ≡ range_verdict at r }
{
    if 1 < r.cc_valid {
        return Err((Reason::Unholdable(Excess::CcValid), Item::Bit(at + 5)));
    }
    if 3 < r.cc_type {
        return Err((Reason::Unholdable(Excess::CcType), Item::Bit(at + 6)));
    }
    Ok(())
}

// Whether the first n records hold numbers that their constructs can. It looks at all of them, since a loop that does not leave early takes
// several at a time; where it answers no, none may be too large.
fn are_in_range(records: &[u8; LENT_RECORDS], n: usize) -> bool
    requires { n ≤ 31 }
    ensures { result ≡ true → records_verdict 56 (take n (lent_records records.now)) ≡ Accepted }
{
    let mut clean = true;
    for i in 0..n {
        let lent = four_at(records, LENT_RECORD * i);
        if !is_in_range(lent) {
            clean = false;
        }
    }
    clean
}

// Whether the first of a record's four bytes is a bit, and the second has two.
fn is_in_range(lent: u32) -> bool
    ensures { result ≡ true → (lent % 256 ≤ 1) × (lent / 256 % 256 ≤ 3) }
{
    lent % 256 <= 1 && lent / 256 % 256 <= 3
}

// Stores the body of a value that was judged, in a part that it fills.
fn put(v: Numbers, records: &[u8; LENT_RECORDS], out: &mut [u8])
    requires records_value { value_verdict (unit_in v records.now) ≡ Accepted }
    requires out_len { length out.old ≡ length (layout (held (unit_in v records.now))) }
    ensures { out.new ≡ layout (held (unit_in v records.now)) }
{
    let flags = v.process_em_data_flag * 128 + v.process_cc_data_flag * 64 + v.n as u32;
    put_head(flags as u8, v.em_data as u8, out);
    put_constructs(v, records, out);
    let end = CONSTRUCTS + CONSTRUCT_BYTES * v.n;
    out[end] = 0xFF;
    out[end + 1..].fill(0);
}

// ATSC_identifier, user_data_type_code, the flags with cc_count, and em_data.
fn put_head(flags: u8, em: u8, out: &mut [u8])
    requires { 7 ≤ length out.old }
    ensures { out.new ≡ over (0x47 ∷ 0x41 ∷ 0x39 ∷ 0x34 ∷ 0x03 ∷ flags ∷ em ∷ []) out.old }
{
    out[0] = 0x47;
    out[1] = 0x41;
    out[2] = 0x39;
    out[3] = 0x34;
    out[4] = 3;
    out[5] = flags;
    out[6] = em;
}

// The constructs, behind the first seven bytes.
fn put_constructs(v: Numbers, records: &[u8; LENT_RECORDS], out: &mut [u8])
    requires records_value { value_verdict (unit_in v records.now) ≡ Accepted }
    requires n_in_bounds { 7 + 3 * v.n ≤ length out.old }
    ensures { out.new ≡ over_at 7 (flat construct_bytes (held (unit_in v records.now)).records) out.old }
{
    for i in 0..v.n {
        let r = ga94::record_in(records, i);
        let at = CONSTRUCTS + CONSTRUCT_BYTES * i;
        out[at] = 0xF8 + 4 * r.cc_valid + r.cc_type;
        out[at + 1] = r.cc_data_1;
        out[at + 2] = r.cc_data_2;
    }
}

// Four bytes as one number, the first of them its lowest. In a function of its own this becomes one load. It stands in ga94_reader too: a public one
// would take every index, and test it at each record.
fn four_at(s: &[u8], at: usize) -> u32
    requires { at + 4 ≤ length s.now }
    ensures { result ≡ get_or s.now at 0 + 256 * get_or s.now (at + 1) 0 + 65536 * (get_or s.now (at + 2) 0 + 256 * get_or s.now (at + 3) 0) }
{
    u32::from_le_bytes([s[at], s[at + 1], s[at + 2], s[at + 3]])
}
