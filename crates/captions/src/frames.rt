// Film pictures into RTP frames.
ghost use Rattle.scte20.specs.Lent.{unit_in};
ghost use Rattle.film_lent.specs.Lent.{PictureInto, CloseInto};
ghost use Rattle.captions.specs.Calls.{numbers_in};

use crate::area::numbers_of;
use film_lent::{Head, LENT_FILM, LENT_SENT};
use scte20::LENT_RECORDS;

// Carries a picture, the access units that it sends into a lent array.
#[unsafe(no_mangle)]
pub extern "C" fn captions_film_picture(
    film: &mut [u8; LENT_FILM],
    top_field_first: u32,
    repeat_first_field: u32,
    line_offset: u32,
    reserved: u32,
    vbi_data_flag: u32,
    n: usize,
    z: usize,
    records: &[u8; LENT_RECORDS],
    units: &mut [u8; LENT_SENT],
) -> Head
    ensures { PictureInto film.old top_field_first repeat_first_field line_offset (unit_in (numbers_in reserved vbi_data_flag n z) records.now) units.old result film.new units.new }
{
    film_lent::picture_into(
        film,
        top_field_first,
        repeat_first_field,
        line_offset,
        numbers_of(reserved, vbi_data_flag, n, z),
        records,
        units,
    )
}

// Ends a run.
#[unsafe(no_mangle)]
pub extern "C" fn captions_film_close(
    film: &mut [u8; LENT_FILM],
    units: &mut [u8; LENT_SENT],
) -> Head
    ensures { CloseInto film.old units.old result film.new units.new }
{
    film_lent::close_into(film, units)
}
