// An area laid around the body of a unit, for each kind of caption unit.
//
// Normative references: docs/RULES.md, "Picture area", "Replacing".
#![tactic(auto)]

ghost use Rattle.std.specs.Prelude.{◌≡◌, ◌+◌, ◌-◌, ◌≤◌, length};
ghost use Rattle.around.specs.Around.{surrounded, Surrounds};

use units::START_BYTES;

// Lays an area around a body of `len` bytes that stands in out: its bytes before `start`, the body's start code, and its bytes from `end` on. Where
// these are no such places, or out is too short, it stores nothing.
pub fn surround(s: &[u8], start: usize, end: usize, len: usize, out: &mut [u8])
    ensures { out.new ≡ surrounded s.now start end len out.old }
{
    if end < start {
        return;
    }
    if s.len() < end {
        return;
    }
    // Each is compared with what is left of the room, so that no sum is too large to hold.
    if out.len() < start {
        return;
    }
    if out.len() - start < START_BYTES {
        return;
    }
    if out.len() - start - START_BYTES < len {
        return;
    }
    if out.len() - start - START_BYTES - len < s.len() - end {
        return;
    }
    lay(s, start, end, len, out);
}

// The same where all fits.
fn lay(s: &[u8], start: usize, end: usize, len: usize, out: &mut [u8])
    requires start_le_end { start ≤ end }
    requires end_in_bounds { end ≤ length s.now }
    requires end_in_bounds_2 { start + 4 + len + (length s.now - end) ≤ length out.old }
    ensures { Surrounds s.now start end len out.old out.new }
{
    let behind = start + START_BYTES + len;
    lists::copy(&s[..start], out);
    units::open(&mut out[start..]);
    lists::copy(&s[end..], &mut out[behind..]);
}
