// Reading a PES data field. Nothing is stored before all its checks accept.
//
// Normative references: docs/RULES.md, "PES data field" and "Order of checks"; EN 300 472.
#![tactic(auto)]

ghost use Rattle.std.specs.Prelude.{◌≡◌, ◌+◌, ◌*◌, ◌≤◌, ◌<◌, length, drop};
ghost use Rattle.lists.specs.Flat.{taken};
ghost use Rattle.lists.specs.Room.{filled, over};
ghost use Rattle.bits.specs.Table.{Reverses};
ghost use Rattle.pes.specs.Value.{blank};
ghost use Rattle.pes.specs.Reading.{read_unit};
ghost use Rattle.pes.specs.Lent.{unit_bytes, units_bytes, ReadsInto};

use pes::{Head, LENT_UNIT, LENT_UNITS, STUFFING_ID, UNIT_BYTES};
use refusal::{Refusal, Verdict};

// Reads a data field, its units into a lent array, which a refusal leaves as it is.
pub fn read_into(s: &[u8], units: &mut [u8; LENT_UNITS]) -> Head
    ensures { ReadsInto s.now units.old result units.new }
{
    let verdict = pes_judge::judge(s);
    let refusal = Refusal::from(verdict);
    if verdict.is_err() {
        return Head {
            refusal,
            data_identifier: 0,
            n: 0,
        };
    }
    let n = (s.len() - 1) / UNIT_BYTES;
    store(&s[1..], n, units);
    Head {
        refusal,
        data_identifier: s[0],
        n,
    }
}

// Stores n units that were judged, and zeros behind them.
fn store(s: &[u8], n: usize, units: &mut [u8; LENT_UNITS])
    requires n_bound { n ≤ 31 }
    requires n_in_bounds { 46 * n ≤ length s.now }
    ensures { units.new ≡ units_bytes (filled (taken read_unit 46 n s.now) 31 blank) }
{
    *units = [0; LENT_UNITS];
    put_units(s, n, units);
}

// The units, one behind the other.
fn put_units(s: &[u8], n: usize, units: &mut [u8])
    requires n_in_bounds { 46 * n ≤ length s.now }
    requires n_in_bounds_2 { 45 * n ≤ length units.old }
    ensures { units.new ≡ over (units_bytes (taken read_unit 46 n s.now)) units.old }
{
    let table = bits::reversed_bytes();
    for i in 0..n {
        put_unit(&s[UNIT_BYTES * i..], &table, &mut units[LENT_UNIT * i..]);
    }
}

// One unit, each byte of its row turned round.
fn put_unit(u: &[u8], table: &[u8; 256], out: &mut [u8])
    requires reverses { Reverses table.now }
    requires in_bounds { 46 ≤ length u.now }
    requires in_bounds_2 { 45 ≤ length out.old }
    ensures { out.new ≡ over (unit_bytes (read_unit u.now)) out.old }
{
    out[0] = u[0];
    if u[0] == STUFFING_ID {
        lists::copy(&u[2..46], &mut out[1..45]);
        return;
    }
    out[1] = u[2] / 32 % 2;
    out[2] = u[2] % 32;
    bits::look_up(&u[4..46], table, &mut out[3..45]);
}
