// Writing a GA94 unit, and putting one into a picture's user data area.
//
// Normative references: docs/RULES.md, "GA94" and "Order of checks"; document 003, Table 3.
#![tactic(auto)]

ghost use Rattle.kind.specs.declared.Kind.TheVariants.{Ga94};
ghost use Rattle.ga94.specs.Lent.{unit_in};
ghost use Rattle.picture.specs.Writing.{Writes, Replaces};

use ga94::{LENT_RECORDS, Numbers};
use refusal::Written;

// Writes the GA94 unit that numbers and a lent array tell, with its start code and its stuffing, at the front of out.
pub fn write_from(v: Numbers, records: &[u8; LENT_RECORDS], out: &mut [u8]) -> Written
    ensures { Writes Ga94 (unit_in v records.now) out.old result out.new }
{
    picture_writer::write_unit(v, records, out)
}

// Writes an area with another GA94 unit, which numbers and a lent array tell, at the front of out. The foreign units pass byte for byte.
pub fn replace_from(s: &[u8], v: Numbers, records: &[u8; LENT_RECORDS], out: &mut [u8]) -> Written
    ensures { Replaces Ga94 s.now (unit_in v records.now) out.old result out.new }
{
    picture_writer::replace_unit(s, v, records, out)
}
