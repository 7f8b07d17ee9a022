// Writing with the flags byte as a number of any size, as the C interface passes it. One that no byte holds is refused,
// not cut.
//
// Normative references: docs/RULES.md, "Calls from C".
ghost use Rattle.line21_writer.specs.Calls.{PayloadWrites, RunWrites};

use crate::reels::write_reel;
use crate::write_from;
use line21::LENT_UNITS;
use refusal::Written;

// Writes the payload of the first m of the units in a lent array.
pub fn write_plain(flags: u32, m: usize, units: &[u8; LENT_UNITS], out: &mut [u8]) -> Written
    ensures { PayloadWrites flags m units.now out.old result out.new }
{
    match line21_judge::judge_flags(flags) {
        Ok(byte) => write_from(byte, m, units, out),
        Err(why) => Written::from(Err(why)),
    }
}

// Writes a reel of a lent run.
pub fn write_reel_plain(flags: u32, size: usize, units: &[u8], out: &mut [u8]) -> Written
    ensures { RunWrites flags size units.now out.old result out.new }
{
    match line21_judge::judge_flags(flags) {
        Ok(byte) => write_reel(byte, size, units, out),
        Err(why) => Written::from(Err(why)),
    }
}
