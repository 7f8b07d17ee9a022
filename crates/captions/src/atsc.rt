// The picture area, for GA94.
ghost use Rattle.kind.specs.declared.Kind.TheVariants.{Ga94};
ghost use Rattle.ga94.specs.Lent.{unit_in};
ghost use Rattle.picture.specs.Writing.{Writes, Replaces};
ghost use Rattle.captions.specs.Calls.{Ga94Reads, ga94_numbers_in};

use crate::Ga94Head;
use ga94::{LENT_RECORDS, Numbers};
use refusal::Written;

// Reads the GA94 unit of an area, its records into a lent array.
#[unsafe(no_mangle)]
pub extern "C" fn captions_ga94_read(area: &[u8], records: &mut [u8; LENT_RECORDS]) -> Ga94Head
    ensures { Ga94Reads area.now records.old result records.new }
{
    let head = picture::ga94_read_into(area, records);
    let numbers = head.numbers;
    Ga94Head {
        refusal: head.refusal,
        present: head.present,
        process_em_data_flag: numbers.process_em_data_flag,
        process_cc_data_flag: numbers.process_cc_data_flag,
        additional_data_flag: numbers.additional_data_flag,
        em_data: numbers.em_data,
        n: numbers.n,
        z: numbers.z,
    }
}

// Writes a GA94 unit at the front of out.
#[unsafe(no_mangle)]
pub extern "C" fn captions_ga94_write(
    process_em_data_flag: u32,
    process_cc_data_flag: u32,
    additional_data_flag: u32,
    em_data: u32,
    n: usize,
    z: usize,
    records: &[u8; LENT_RECORDS],
    out: &mut [u8],
) -> Written
    ensures { Writes Ga94 (unit_in (ga94_numbers_in process_em_data_flag process_cc_data_flag additional_data_flag em_data n z) records.now) out.old result out.new }
{
    let numbers = Numbers {
        process_em_data_flag,
        process_cc_data_flag,
        additional_data_flag,
        em_data,
        n,
        z,
    };
    ga94_picture_writer::write_from(numbers, records, out)
}

// Writes an area with another GA94 unit at the front of out.
#[unsafe(no_mangle)]
pub extern "C" fn captions_ga94_replace(
    area: &[u8],
    process_em_data_flag: u32,
    process_cc_data_flag: u32,
    additional_data_flag: u32,
    em_data: u32,
    n: usize,
    z: usize,
    records: &[u8; LENT_RECORDS],
    out: &mut [u8],
) -> Written
    ensures { Replaces Ga94 area.now (unit_in (ga94_numbers_in process_em_data_flag process_cc_data_flag additional_data_flag em_data n z) records.now) out.old result out.new }
{
    let numbers = Numbers {
        process_em_data_flag,
        process_cc_data_flag,
        additional_data_flag,
        em_data,
        n,
        z,
    };
    ga94_picture_writer::replace_from(area, numbers, records, out)
}
