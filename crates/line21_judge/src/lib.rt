// The checks of writing a Line 21 payload, of units that are lent as bytes. They are those of a single payload and of
// each payload of a reel.
//
// Normative references: docs/RULES.md, "Order of checks" and "Line 21 payload".
#![tactic(auto)]

ghost use Rattle.std.specs.Prelude.{◌≡◌, true, ◌↔◌};
ghost use Rattle.line21_judge.specs.Judging.{flags_judged};
ghost use Rattle.line21.specs.Writing.{unit_verdict};
ghost use Rattle.line21_judge.specs.Judging.{lent_verdict};
ghost use Rattle.line21_judge.specs.Seen.{Clear, Gathers, Vouches};

use line21::{AccessUnit, LENT_UNIT, MAX_UNITS, UNIT_BYTES};
use refusal::{Excess, Item, Judged, Reason, Verdict};

// RULES, "Order of checks": 15 of m, 15 unit by unit, then 1, which 291 units cannot meet, then 14. No flags byte is
// refused. A slice that has fewer units is 15 as well.
pub fn judge_value(m: usize, units: &[u8], room: usize) -> Verdict
    ensures { result ≡ lent_verdict m units.now room }
{
    if units.len() / LENT_UNIT < m || MAX_UNITS < m {
        return Err((Reason::Unholdable(Excess::Count), Item::Whole));
    }
    for i in 0..m {
        judge_unit(line21::unit_in(units, i))?;
    }
    if room < 1 + UNIT_BYTES * m {
        return Err((Reason::NoRoom, Item::Whole));
    }
    Ok(())
}

// RULES, "Calls from C": the flags byte as a number of any size. One that no byte holds is 15, and not cut.
pub fn judge_flags(flags: u32) -> Judged<u8>
    ensures { result ≡ flags_judged flags }
{
    u8::try_from(flags).map_err(|_| (Reason::Unholdable(Excess::FlagsByte), Item::Whole))
}

pub fn judge_unit(u: AccessUnit) -> Verdict
    ensures { result ≡ unit_verdict u }
{
    if 1 < u.cc_valid_1 || 1 < u.cc_valid_2 {
        return Err((Reason::Unholdable(Excess::CcValid), Item::Whole));
    }
    if 63 < u.padding {
        return Err((Reason::Unholdable(Excess::Padding), Item::Whole));
    }
    Ok(())
}

// Whether no unit of a run is refused. After a no, the checks in their order tell what is wrong. It looks at all units: a
// loop that does not leave early is done by wide registers.
pub fn all_hold(units: &[u8]) -> bool
    ensures { Vouches units.now result }
{
    let mut seen = 0;
    for i in 0..units.len() / LENT_UNIT {
        seen = gather(seen, line21::unit_in(units, i));
    }
    is_clear(seen)
}

// One unit more. Its first four bytes are one number, so that they are one load; the fourth, a data byte, does not count.
pub fn gather(seen: u32, u: AccessUnit) -> u32
    ensures { Gathers seen u result }
{
    seen | u32::from_le_bytes([u.cc_valid_1, u.cc_valid_2, u.padding, u.field1_data1])
}

// Whether none of the units that were gathered is refused.
pub fn is_clear(seen: u32) -> bool
    ensures { result ≡ true ↔ Clear seen }
{
    seen % 256 < 2 && seen / 256 % 256 < 2 && seen / 65536 % 256 < 64
}
