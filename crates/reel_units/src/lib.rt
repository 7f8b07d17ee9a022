// A reel of a slice of access unit structs: a run of units as Line 21 payloads of one size, one behind the other.
//
// Normative references: docs/RULES.md, "Reel" and "Order of checks"; document 004, 3.2.1, Tables 1 and 2.
#![tactic(auto)]

ghost use Rattle.std.specs.Prelude.{◌≡◌, ◌+◌, ◌*◌, ◌≤◌, ◌<◌, true, length};
ghost use Rattle.lists.specs.Each.{Each};
ghost use Rattle.lists.specs.Room.{over};
ghost use Rattle.refusal.specs.Verdict.{Accepted};
ghost use Rattle.line21.specs.Value.{ByteUnit};
ghost use Rattle.line21.specs.Layout.{layout, layout_access_unit};
ghost use Rattle.line21.specs.Writing.{unit_verdict, units_verdict};
ghost use Rattle.reel.specs.Writing.{payload as Writing·payload, reel, reel_layout, reel_verdict};
ghost use Rattle.reel_units.specs.Calls.{ReelWrites};
ghost use Rattle.reel_units.specs.Inside.{Lays, Vouches};

use line21::{AccessUnit, UNIT_BYTES};
use refusal::{Item, Judged, Reason, Verdict, Written};

// Writes the run at the front of out, size units to a payload. A number that the flags byte cannot hold is refused, not
// cut.
pub fn write_units(flags: u32, size: usize, units: &[AccessUnit], out: &mut [u8]) -> Written
    ensures { ReelWrites flags size units.now out.old result out.new }
{
    known(units);
    Written::from(lay(flags, size, units, out))
}

// A proof knows of a unit that its fields are bytes once it is handed on. Here all of them are, so that a proof is told so;
// compiled, nothing is left.
fn known(units: &[AccessUnit])
    ensures { Each ByteUnit units.now }
{
    for unit in units {
        told(*unit);
    }
}

fn told(u: AccessUnit)
    ensures { ByteUnit u }
{}

// All is judged before the first byte is stored, so that a refusal leaves the output as it was (RULES, "Reel").
fn lay(flags: u32, size: usize, units: &[AccessUnit], out: &mut [u8]) -> Judged<usize>
    ensures { Lays flags size units.now out.old result out.new }
{
    let byte = line21_judge::judge_flags(flags)?;
    reel::judge_size(size)?;
    if !passes(size, units, out.len()) {
        judge(size, units, out.len())?;
    }
    Ok(store(byte, size, units, out))
}

// Whether no check is failed. After a no, the checks in their order tell which is.
fn passes(size: usize, units: &[AccessUnit], room: usize) -> bool
    ensures { Vouches size units.now room result }
{
    reel::fits(size, units.len(), room) && all_hold(units)
}

// Whether no unit is refused. It looks at all units: a loop that does not leave early is done by wide registers.
fn all_hold(units: &[AccessUnit]) -> bool
    ensures { result ≡ true → units_verdict units.now ≡ Accepted }
{
    let mut seen = 0;
    for unit in units {
        seen = line21_judge::gather(seen, *unit);
    }
    line21_judge::is_clear(seen)
}

// RULES, "Order of checks": payload by payload, 15 of its units, then 14 for the room.
fn judge(size: usize, units: &[AccessUnit], room: usize) -> Verdict
    requires { (0 < size) × (size ≤ 291) }
    ensures { result ≡ reel_verdict (reel 0 size units.now) room }
{
    let mut left = room;
    for payload in units.chunks(size) {
        judge_units(payload)?;
        let len = 1 + UNIT_BYTES * payload.len();
        if left < len {
            return Err((Reason::NoRoom, Item::Whole));
        }
        left -= len;
    }
    Ok(())
}

fn judge_units(units: &[AccessUnit]) -> Verdict
    ensures { result ≡ units_verdict units.now }
{
    for unit in units {
        line21_judge::judge_unit(*unit)?;
    }
    Ok(())
}

// Stores the payloads of a run that was judged, and tells how long they are.
fn store(flags: u8, size: usize, units: &[AccessUnit], out: &mut [u8]) -> usize
    requires size_in { (0 < size) × (size ≤ 291) }
    requires judged { reel_verdict (reel flags size units.now) (length out.old) ≡ Accepted }
    ensures value { result ≡ length (reel_layout (reel flags size units.now)) }
    ensures out_after { out.new ≡ over (reel_layout (reel flags size units.now)) out.old }
{
    let mut at = 0;
    for payload in units.chunks(size) {
        at += put_payload(flags, payload, &mut out[at..]);
    }
    at
}

// Stores one payload at the front of out.
fn put_payload(flags: u8, units: &[AccessUnit], out: &mut [u8]) -> usize
    requires judged { units_verdict units.now ≡ Accepted }
    requires in_bounds { 1 + 5 * length units.now ≤ length out.old }
    ensures value { result ≡ length (layout (Writing·payload flags units.now)) }
    ensures out_after { out.new ≡ over (layout (Writing·payload flags units.now)) out.old }
{
    out[0] = flags;
    let mut at = 1;
    for unit in units {
        out[at..at + UNIT_BYTES].copy_from_slice(&unit_bytes(*unit));
        at += UNIT_BYTES;
    }
    at
}

// A unit's bytes in a payload. It stands in line21_writer too: a public one would take every unit, and have to cut what its bits cannot hold.
fn unit_bytes(u: AccessUnit) -> [u8; UNIT_BYTES]
    requires { unit_verdict u ≡ Accepted }
    ensures { result ≡ layout_access_unit u }
{
    [
        u.cc_valid_1 * 128 + u.cc_valid_2 * 64 + u.padding,
        u.field1_data1,
        u.field1_data2,
        u.field2_data1,
        u.field2_data2,
    ]
}
