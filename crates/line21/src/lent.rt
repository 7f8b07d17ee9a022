// Units as bytes in a lent array. Inside the crate it is a slice, which tells its length; an array behind a
// reference does not.
ghost use Rattle.std.specs.Prelude.{◌≡◌, ◌+◌, ◌-◌, ◌*◌, ◌≤◌, ◌++◌, length, get_or, take, drop, replicate};
ghost use Rattle.lists.specs.Room.{over_at};
ghost use Rattle.line21.specs.Value.{blank as Value·blank};
ghost use Rattle.line21.specs.Lent.{access_unit_bytes, access_units_bytes, access_unit_in, run_in};

use crate::{AccessUnit, LENT_UNIT, LENT_UNITS, MAX_UNITS, Payload};

// The unit of index i, counted from 0. Beyond the last whole one it is all zero.
pub fn unit_in(units: &[u8], i: usize) -> AccessUnit
    ensures { result ≡ get_or (run_in units.now) i Value·blank }
{
    if units.len() / LENT_UNIT <= i {
        return AccessUnit::default();
    }
    let at = LENT_UNIT * i;
    AccessUnit {
        cc_valid_1: units[at],
        cc_valid_2: units[at + 1],
        padding: units[at + 2],
        field1_data1: units[at + 3],
        field1_data2: units[at + 4],
        field2_data1: units[at + 5],
        field2_data2: units[at + 6],
    }
}

// A unit's bytes in a lent array.
pub fn lent_bytes(u: AccessUnit) -> [u8; LENT_UNIT]
    ensures { result ≡ access_unit_bytes u }
{
    [
        u.cc_valid_1,
        u.cc_valid_2,
        u.padding,
        u.field1_data1,
        u.field1_data2,
        u.field2_data1,
        u.field2_data2,
    ]
}

// Stores one unit from index `at` on.
pub(crate) fn put_flat(u: AccessUnit, at: usize, units: &mut [u8])
    requires { at + 7 ≤ length units.old }
    ensures { units.new ≡ over_at at (access_unit_bytes u) units.old }
{
    units[at..at + LENT_UNIT].copy_from_slice(&lent_bytes(u));
}

// A struct's units as bytes.
pub fn bytes_of(p: Payload) -> [u8; LENT_UNITS]
    ensures { result ≡ access_units_bytes p.units }
{
    let mut bytes = [0; LENT_UNITS];
    for i in 0..MAX_UNITS {
        put_flat(p.units[i], LENT_UNIT * i, &mut bytes);
    }
    bytes
}
