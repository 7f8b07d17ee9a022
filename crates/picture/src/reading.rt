// Reading an area for SCTE 20.
ghost use Rattle.std.specs.Prelude.{refl};
ghost use Rattle.kind.specs.declared.Kind.TheVariants.{Scte20};
ghost use Rattle.picture.specs.Reading.{Reads};
ghost use Rattle.picture.specs.Lent.{ReadsInto, answered, headed};

use crate::{Answer, Content, Head, area};
use kind::Kind;
use refusal::{Judged, Verdict};
use scte20::{LENT_RECORDS, Numbers};

impl Content<LENT_RECORDS> for Numbers {
    ghost KIND = { Scte20 };

    ghost told = { λ v. v };

    ghost wide = { refl };

    const KIND: Kind = Kind::Scte20;

    fn zeros() -> Numbers {
        Numbers {
            reserved: 0,
            vbi_data_flag: 0,
            n: 0,
            z: 0,
        }
    }

    fn judge(body: &[u8]) -> Verdict {
        scte20_reader::judge(body)
    }

    fn read_into(body: &[u8], records: &mut [u8; LENT_RECORDS]) -> Judged<Numbers> {
        scte20_reader::read_into(body, records)
    }
}

// Reads the caption unit of an area. The foreign units are not looked into.
pub fn read(s: &[u8]) -> Answer
    ensures { Reads Scte20 s.now (answered result) }
{
    let mut records = [0; LENT_RECORDS];
    let head = read_into(s, &mut records);
    Answer {
        refusal: head.refusal,
        present: head.present,
        unit: scte20::unit_of(head.numbers, &records),
    }
}

// The same with the records in a lent array, which a refusal leaves as it is. Without a caption unit it is cleared.
pub fn read_into(s: &[u8], records: &mut [u8; LENT_RECORDS]) -> Head<Numbers>
    ensures { ReadsInto Scte20 s.now records.old (headed result) records.new }
{
    area::read_area(s, records)
}
