// Writing a PES data field.
//
// Normative references: docs/RULES.md, "PES data field" and "Order of checks"; EN 300 472.
#![tactic(auto)]

ghost use Rattle.std.specs.Prelude.{◌≡◌, ◌+◌, ◌*◌, ◌≤◌, ◌<◌, length};
ghost use Rattle.lists.specs.Flat.{taken};
ghost use Rattle.lists.specs.Room.{over};
ghost use Rattle.refusal.specs.Verdict.{Accepted};
ghost use Rattle.bits.specs.Table.{Reverses};
ghost use Rattle.pes.specs.Layout.{layout_unit, layout_units};
ghost use Rattle.pes.specs.Writing.{written_verdict, written_units, value_verdict, Writes};
ghost use Rattle.pes.specs.Lent.{unit_in, field_in};

use pes::{
    DATA_UNIT_LENGTH, FRAMING_CODE, LENT_UNIT, LENT_UNITS, MAX_UNITS, STUFFING_ID, UNIT_BYTES,
};
use refusal::{Excess, Item, Reason, Refusal, Verdict, Written};

// Writes the data field of data_identifier and the first n of the units in a lent array at the front of out.
pub fn write_from(
    data_identifier: u32,
    n: usize,
    units: &[u8; LENT_UNITS],
    out: &mut [u8],
) -> Written
    ensures { Writes (field_in data_identifier n units.now) out.old result out.new }
{
    let verdict = judge_value(data_identifier, n, units, out.len());
    let refusal = Refusal::from(verdict);
    if verdict.is_err() {
        return Written { refusal, len: 0 };
    }
    out[0] = data_identifier as u8;
    put_units(n, units, &mut out[1..]);
    Written {
        refusal,
        len: 1 + UNIT_BYTES * n,
    }
}

// RULES, "Order of checks": 15 of data_identifier and of n; 15 and 7 unit by unit; then 14.
#[tactic(auto, using(crate::proofs::Judged::steps))]
fn judge_value(data_identifier: u32, n: usize, units: &[u8], room: usize) -> Verdict
    requires { length units.now ≡ 1395 }
    ensures { result ≡ value_verdict (field_in data_identifier n units.now) room }
{
    if data_identifier / 16 != 1 {
        return Err((Reason::Unholdable(Excess::DataIdentifier), Item::Whole));
    }
    if MAX_UNITS < n {
        return Err((Reason::Unholdable(Excess::Count), Item::Whole));
    }
    for i in 0..n {
        judge_unit(&units[LENT_UNIT * i..])?;
    }
    if room < 1 + UNIT_BYTES * n {
        return Err((Reason::NoRoom, Item::Whole));
    }
    Ok(())
}

// The unit at the front. Stuffing is carried as it is.
#[tactic(auto, unfolding(pes::specs::Writing::written_verdict, pes::specs::Lent::unit_in, pes::specs::Reading::line_verdict))]
fn judge_unit(u: &[u8]) -> Verdict
    requires { 45 ≤ length u.now }
    ensures { result ≡ written_verdict (unit_in u.now) }
{
    if u[0] == STUFFING_ID {
        return Ok(());
    }
    if !pes::is_teletext(u[0]) {
        return Err((Reason::Unholdable(Excess::DataUnitId), Item::Whole));
    }
    if 1 < u[1] {
        return Err((Reason::Unholdable(Excess::FieldParity), Item::Whole));
    }
    if 31 < u[2] {
        return Err((Reason::Unholdable(Excess::LineOffset), Item::Whole));
    }
    pes::judge_line(u[2], Item::Whole)
}

// The units, one behind the other.
fn put_units(n: usize, units: &[u8], out: &mut [u8])
    requires n_in_bounds { 45 * n ≤ length units.now }
    requires n_in_bounds_2 { 46 * n ≤ length out.old }
    requires units_value { written_units (taken unit_in 45 n units.now) ≡ Accepted }
    ensures { out.new ≡ over (layout_units (taken unit_in 45 n units.now)) out.old }
{
    let table = bits::reversed_bytes();
    for i in 0..n {
        put_unit(&units[LENT_UNIT * i..], &table, &mut out[UNIT_BYTES * i..]);
    }
}

// One unit, each byte of its row turned round.
fn put_unit(u: &[u8], table: &[u8; 256], out: &mut [u8])
    requires reverses { Reverses table.now }
    requires u_value { written_verdict (unit_in u.now) ≡ Accepted }
    requires in_bounds { 45 ≤ length u.now }
    requires in_bounds_2 { 46 ≤ length out.old }
    ensures { out.new ≡ over (layout_unit (unit_in u.now)) out.old }
{
    out[0] = u[0];
    out[1] = DATA_UNIT_LENGTH;
    if u[0] == STUFFING_ID {
        lists::copy(&u[1..45], &mut out[2..46]);
        return;
    }
    out[2] = 192 + 32 * u[1] + u[2];
    out[3] = FRAMING_CODE;
    bits::look_up(&u[3..45], table, &mut out[4..46]);
}
