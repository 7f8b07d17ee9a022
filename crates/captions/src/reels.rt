// A reel of Line 21 payloads.
ghost use Rattle.line21_writer.specs.Calls.{RunWrites};
ghost use Rattle.reel_units.specs.Calls.{ReelWrites};

use line21::AccessUnit;
use refusal::Written;

// Writes a run of access units as payload after payload of `size` units at the front of out.
#[unsafe(no_mangle)]
pub extern "C" fn captions_reel_write(
    flags: u32,
    size: usize,
    units: &[AccessUnit],
    out: &mut [u8],
) -> Written
    ensures { ReelWrites flags size units.now out.old result out.new }
{
    reel_units::write_units(flags, size, units, out)
}

// The same of a run that is lent as bytes, seven for each unit.
#[unsafe(no_mangle)]
pub extern "C" fn captions_reel_write_bytes(
    flags: u32,
    size: usize,
    units: &[u8],
    out: &mut [u8],
) -> Written
    ensures { RunWrites flags size units.now out.old result out.new }
{
    line21_writer::write_reel_plain(flags, size, units, out)
}
