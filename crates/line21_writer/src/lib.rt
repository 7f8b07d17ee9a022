// Writing an ISMA Line 21 RTP payload, and a reel of them.
//
// Normative references: docs/RULES.md, "Line 21 payload" and "Order of checks"; document 004, 3.2.1, Tables 1 and 2.
#![tactic(auto)]

mod plain;
mod reels;

ghost use Rattle.std.specs.Prelude.{◌≡◌, [], Err, ◌+◌, ◌*◌, ◌≤◌, length, drop};
ghost use Rattle.lists.specs.Room.{over};
ghost use Rattle.refusal.specs.Verdict.{Accepted};
ghost use Rattle.refusal.specs.Answers.{counted_of, written as Answers·written};
ghost use Rattle.line21.specs.Value.{held};
ghost use Rattle.line21.specs.Layout.{layout, layout_access_unit};
ghost use Rattle.line21.specs.Writing.{unit_verdict, value_verdict, Writes};
ghost use Rattle.line21.specs.Lent.{access_unit_in, payload_in};

use line21::{AccessUnit, LENT_UNIT, LENT_UNITS, Payload, UNIT_BYTES};
pub use plain::{write_plain, write_reel_plain};
pub use reels::write_reel;
use refusal::{Item, Reason, Refusal, Written};

// Writes a payload at the front of out.
pub fn write(p: Payload, out: &mut [u8]) -> Written
    ensures { Writes p out.old result out.new }
{
    let units = line21::bytes_of(p);
    write_from(p.flags, p.m, &units, out)
}

// Writes the payload of a flags byte and the first m of the units in a lent array.
pub fn write_from(flags: u8, m: usize, units: &[u8; LENT_UNITS], out: &mut [u8]) -> Written
    ensures { Writes (payload_in flags m units.now) out.old result out.new }
{
    if let Err(why) = line21_judge::judge_value(m, units, out.len()) {
        return Written::from(Err(why));
    }
    let len = write_judged(flags, m, units, out);
    Written::from(Ok(len))
}

// Writes a payload that was judged at the front of out, and tells its length.
pub(crate) fn write_judged(flags: u8, m: usize, units: &[u8], out: &mut [u8]) -> usize
    requires out_value { value_verdict (payload_in flags m units.now) (length out.old) ≡ Accepted }
    requires m_in_bounds { 7 * m ≤ length units.now }
    ensures value { result ≡ length (layout (held (payload_in flags m units.now))) }
    ensures out_after { out.new ≡ over (layout (held (payload_in flags m units.now))) out.old }
{
    out[0] = flags;
    for k in 0..m {
        let at = 1 + UNIT_BYTES * k;
        let unit = unit_at(units, LENT_UNIT * k);
        out[at..at + UNIT_BYTES].copy_from_slice(&unit_bytes(unit));
    }
    1 + UNIT_BYTES * m
}

// A unit's bytes in a payload. It stands in reel_units too: a public one would take every unit, and have to cut what its bits cannot hold.
fn unit_bytes(u: AccessUnit) -> [u8; UNIT_BYTES]
    requires { unit_verdict u ≡ Accepted }
    ensures { result ≡ layout_access_unit u }
{
    [
        u.cc_valid_1 * 128 + u.cc_valid_2 * 64 + u.padding,
        u.field1_data1,
        u.field1_data2,
        u.field2_data1,
        u.field2_data2,
    ]
}

// The unit whose seven bytes stand from index at on. Not line21::unit_in: it tests its index, and with it a payload of 291
// units was written in 1.2 to 1.4 times what plain C takes.
fn unit_at(units: &[u8], at: usize) -> AccessUnit
    requires { at + 7 ≤ length units.now }
    ensures { result ≡ access_unit_in (drop at units.now) }
{
    AccessUnit {
        cc_valid_1: units[at],
        cc_valid_2: units[at + 1],
        padding: units[at + 2],
        field1_data1: units[at + 3],
        field1_data2: units[at + 4],
        field2_data1: units[at + 5],
        field2_data2: units[at + 6],
    }
}
