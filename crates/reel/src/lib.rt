// A reel: a run of access units as Line 21 payloads of one size, one behind the other.
//
// Normative references: docs/RULES.md, "Reel"; document 004, 3.2.1, Tables 1 and 2.
#![tactic(auto)]

ghost use Rattle.std.specs.Prelude.{◌≡◌, ◌-◌};
ghost use Rattle.reel.specs.Writing.{size_verdict};
ghost use Rattle.reel.specs.Lent.{run_verdict};
ghost use Rattle.reel.specs.Fitting.{Fits, Vouches};

use line21::{LENT_UNIT, MAX_UNITS, UNIT_BYTES};
use refusal::{Excess, Item, Reason, Verdict};

// The first check of both writers (RULES, "Order of checks"): 15 for a size that no payload has.
pub fn judge_size(size: usize) -> Verdict
    ensures { result ≡ size_verdict size }
{
    if size == 0 || MAX_UNITS < size {
        return Err((Reason::Unholdable(Excess::PayloadSize), Item::Whole));
    }
    Ok(())
}

// RULES, "Order of checks": 15 of the size, 15 of a run that ends within a unit, then each payload's own checks in its
// turn, with the room that those before it leave.
pub fn judge_reel(size: usize, units: &[u8], room: usize) -> Verdict
    ensures { result ≡ run_verdict 0 size units.now room }
{
    judge_size(size)?;
    if units.len() % LENT_UNIT != 0 {
        return Err((Reason::Unholdable(Excess::RunLength), Item::Whole));
    }
    if passes(size, units, room) {
        return Ok(());
    }
    let mut left = room;
    for payload in units.chunks(LENT_UNIT * size) {
        let m = payload.len() / LENT_UNIT;
        line21_judge::judge_value(m, payload, left)?;
        left -= 1 + UNIT_BYTES * m;
    }
    Ok(())
}

// Whether no check is failed. After a no, the checks in their order tell which is.
fn passes(size: usize, units: &[u8], room: usize) -> bool
    ensures { Vouches size units.now room result }
{
    fits(size, units.len() / LENT_UNIT, room) && line21_judge::all_hold(units)
}

// Whether n units fit the room: five bytes each, and a flags byte for each payload.
pub fn fits(size: usize, n: usize, room: usize) -> bool
    ensures { Fits size n room result }
{
    if size == 0 || room / UNIT_BYTES < n {
        return false;
    }
    n == 0 || (n - 1) / size < room - UNIT_BYTES * n
}

// The smaller of two numbers.
pub fn least(a: usize, b: usize) -> usize
    ensures { result ≡ a - (a - b) }
{
    a.min(b)
}
