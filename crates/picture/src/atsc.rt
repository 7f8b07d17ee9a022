// Reading an area for GA94.
ghost use Rattle.std.specs.Prelude.{refl};
ghost use Rattle.kind.specs.declared.Kind.TheVariants.{Ga94};
ghost use Rattle.picture.specs.Lent.{ReadsInto, ga94_headed};

use crate::{Content, Ga94Head, area};
use ga94::{LENT_RECORDS, Numbers};
use kind::Kind;
use refusal::{Judged, Verdict};

impl Content<LENT_RECORDS> for Numbers {
    ghost KIND = { Ga94 };

    ghost told = { λ v. v };

    ghost wide = { refl };

    const KIND: Kind = Kind::Ga94;

    fn zeros() -> Numbers {
        Numbers {
            process_em_data_flag: 0,
            process_cc_data_flag: 0,
            additional_data_flag: 0,
            em_data: 0,
            n: 0,
            z: 0,
        }
    }

    fn judge(body: &[u8]) -> Verdict {
        ga94_reader::judge(body)
    }

    fn read_into(body: &[u8], records: &mut [u8; LENT_RECORDS]) -> Judged<Numbers> {
        ga94_reader::read_into(body, records)
    }
}

// Reads the GA94 unit of an area, its records into a lent array, which a refusal leaves as it is. Without such a unit the array is cleared. The
// foreign units are not looked into.
pub fn ga94_read_into(s: &[u8], records: &mut [u8; LENT_RECORDS]) -> Ga94Head
    ensures { ReadsInto Ga94 s.now records.old (ga94_headed result) records.new }
{
    area::read_area(s, records)
}
