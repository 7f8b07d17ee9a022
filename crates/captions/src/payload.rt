// The Line 21 payload.
ghost use Rattle.line21.specs.Lent.{ReadsInto};
ghost use Rattle.line21_writer.specs.Calls.{PayloadWrites};

use line21::{Head, LENT_UNITS};
use refusal::Written;

// Reads a payload, its units into a lent array.
#[unsafe(no_mangle)]
pub extern "C" fn captions_payload_read(payload: &[u8], units: &mut [u8; LENT_UNITS]) -> Head
    ensures { ReadsInto payload.now units.old result units.new }
{
    line21::read_into(payload, units)
}

// Writes a payload at the front of out. A number that the flags byte cannot hold is refused, not cut.
#[unsafe(no_mangle)]
pub extern "C" fn captions_payload_write(
    flags: u32,
    m: usize,
    units: &[u8; LENT_UNITS],
    out: &mut [u8],
) -> Written
    ensures { PayloadWrites flags m units.now out.old result out.new }
{
    line21_writer::write_plain(flags, m, units, out)
}
