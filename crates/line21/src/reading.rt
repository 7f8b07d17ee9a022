// Reading a payload: whole, its head alone, or one access unit alone.
ghost use Rattle.std.specs.Prelude.{◌≡◌, ◌+◌, ◌≤◌, length, drop};
ghost use Rattle.lists.specs.Room.{over};
ghost use Rattle.refusal.specs.Verdict.{Accepted};
ghost use Rattle.line21.specs.Value.{blank as Value·blank, none, stored};
ghost use Rattle.line21.specs.Reading.{length_verdict, read_unit, value_of, Reads, ReadsHead, ReadsUnit};
ghost use Rattle.line21.specs.Lent.{access_units_bytes, ReadsInto};

use crate::{
    AccessUnit, Answer, Head, LENT_UNIT, LENT_UNITS, MAX_BYTES, MAX_UNITS, Payload, UNIT_BYTES,
    lent,
};
use refusal::{Item, Misfit, Reason, Refusal, Verdict};

// Reads a whole payload.
pub fn read(s: &[u8]) -> Answer
    ensures { Reads s.now result }
{
    let verdict = judge_length(s.len());
    let refusal = Refusal::from(verdict);
    let payload = match verdict {
        Ok(()) => collect(s),
        Err(_) => nothing(),
    };
    Answer { refusal, payload }
}

// Reads what stands before the units, with no array of them.
pub fn read_head(s: &[u8]) -> Head
    ensures { ReadsHead s.now result }
{
    let verdict = judge_length(s.len());
    let refusal = Refusal::from(verdict);
    match verdict {
        Ok(()) => Head {
            refusal,
            flags: s[0],
            m: (s.len() - 1) / UNIT_BYTES,
        },
        Err(_) => Head {
            refusal,
            flags: 0,
            m: 0,
        },
    }
}

// Reads a whole payload, its units into a lent array, which a refusal leaves as it is.
pub fn read_into(s: &[u8], units: &mut [u8; LENT_UNITS]) -> Head
    ensures { ReadsInto s.now units.old result units.new }
{
    let head = read_head(s);
    // By its number: of a refusal the head tells no more.
    if head.refusal.number != 0 {
        return head;
    }
    collect_into(s, units);
    units[LENT_UNIT * head.m..].fill(0);
    head
}

// Reads the access unit of index i, counted from 0, with no array of them. Where there is none of that index it tells the
// payload's refusal, of number 0 where the payload is accepted and has fewer.
pub fn read_unit(s: &[u8], i: usize) -> Result<AccessUnit, Refusal>
    ensures { ReadsUnit s.now i result }
{
    let verdict = judge_length(s.len());
    if let Ok(()) = verdict {
        if i < (s.len() - 1) / UNIT_BYTES {
            return Ok(unit_at(s, 1 + UNIT_BYTES * i));
        }
    }
    Err(Refusal::from(verdict))
}

// RULES, "Order of checks": 2, 1, 13.
#[tactic(auto, unfolding(crate::specs::Reading::length_verdict))]
fn judge_length(n: usize) -> Verdict
    ensures { result ≡ length_verdict n }
{
    if n == 0 {
        return Err((Reason::NoStart, Item::Length(n)));
    }
    if MAX_BYTES < n {
        return Err((Reason::TooLong, Item::Length(n)));
    }
    if (n - 1) % UNIT_BYTES != 0 {
        return Err((Reason::Unfit(Misfit::PayloadLength), Item::Length(n)));
    }
    Ok(())
}

// The value of a payload whose length was judged.
fn collect(s: &[u8]) -> Payload
    requires { length_verdict (length s.now) ≡ Accepted }
    ensures { result ≡ stored (value_of s.now) }
{
    let m = (s.len() - 1) / UNIT_BYTES;
    let mut units = [AccessUnit::default(); MAX_UNITS];
    for i in 0..m {
        units[i] = unit_at(s, 1 + UNIT_BYTES * i);
    }
    Payload {
        flags: s[0],
        m,
        units,
    }
}

// The units of a payload whose length was judged, at the front of a lent array.
fn collect_into(s: &[u8], units: &mut [u8])
    requires s_value { length_verdict (length s.now) ≡ Accepted }
    requires units_len { length units.old ≡ 2037 }
    ensures { units.new ≡ over (access_units_bytes (value_of s.now).units) units.old }
{
    let count = (s.len() - 1) / UNIT_BYTES;
    for i in 0..count {
        lent::put_flat(unit_at(s, 1 + UNIT_BYTES * i), LENT_UNIT * i, units);
    }
}

// The unit that the five bytes from index at hold.
fn unit_at(s: &[u8], at: usize) -> AccessUnit
    requires { at + 5 ≤ length s.now }
    ensures { result ≡ read_unit (drop at s.now) }
{
    let first = s[at];
    AccessUnit {
        cc_valid_1: first / 128,
        cc_valid_2: first / 64 % 2,
        padding: first % 64,
        field1_data1: s[at + 1],
        field1_data2: s[at + 2],
        field2_data1: s[at + 3],
        field2_data2: s[at + 4],
    }
}

// All zero, as in a refusal.
fn nothing() -> Payload
    ensures { result ≡ stored none }
{
    let units = [AccessUnit::default(); MAX_UNITS];
    Payload {
        flags: 0,
        m: 0,
        units,
    }
}
