// The picture area, for SCTE 20.
ghost use Rattle.std.specs.Prelude.{◌≡◌};
ghost use Rattle.kind.specs.declared.Kind.TheVariants.{Scte20};
ghost use Rattle.scte20.specs.Lent.{unit_in};
ghost use Rattle.picture.specs.Writing.{Writes, Replaces};
ghost use Rattle.captions.specs.Calls.{numbers_in, AreaReads};

use crate::UnitHead;
use refusal::Written;
use scte20::{LENT_RECORDS, Numbers};

// Reads the caption unit of an area, its records into a lent array.
#[unsafe(no_mangle)]
pub extern "C" fn captions_area_read(area: &[u8], records: &mut [u8; LENT_RECORDS]) -> UnitHead
    ensures { AreaReads area.now records.old result records.new }
{
    let head = picture::read_into(area, records);
    let numbers = head.numbers;
    UnitHead {
        refusal: head.refusal,
        present: head.present,
        reserved: numbers.reserved,
        vbi_data_flag: numbers.vbi_data_flag,
        n: numbers.n,
        z: numbers.z,
    }
}

// Writes a caption unit at the front of out.
#[unsafe(no_mangle)]
pub extern "C" fn captions_unit_write(
    reserved: u32,
    vbi_data_flag: u32,
    n: usize,
    z: usize,
    records: &[u8; LENT_RECORDS],
    out: &mut [u8],
) -> Written
    ensures { Writes Scte20 (unit_in (numbers_in reserved vbi_data_flag n z) records.now) out.old result out.new }
{
    picture_writer::write_from(numbers_of(reserved, vbi_data_flag, n, z), records, out)
}

// Writes an area with another caption unit at the front of out.
#[unsafe(no_mangle)]
pub extern "C" fn captions_area_replace(
    area: &[u8],
    reserved: u32,
    vbi_data_flag: u32,
    n: usize,
    z: usize,
    records: &[u8; LENT_RECORDS],
    out: &mut [u8],
) -> Written
    ensures { Replaces Scte20 area.now (unit_in (numbers_in reserved vbi_data_flag n z) records.now) out.old result out.new }
{
    picture_writer::replace_from(
        area,
        numbers_of(reserved, vbi_data_flag, n, z),
        records,
        out,
    )
}

#[tactic(auto, unfolding(crate::specs::Calls::numbers_in))]
pub(crate) fn numbers_of(reserved: u32, vbi_data_flag: u32, n: usize, z: usize) -> Numbers
    ensures { result ≡ numbers_in reserved vbi_data_flag n z }
{
    Numbers {
        reserved: scte20::narrow(reserved as usize),
        vbi_data_flag: scte20::narrow(vbi_data_flag as usize),
        n,
        z,
    }
}
