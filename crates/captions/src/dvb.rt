// Teletext for DVB: the PES data field.
ghost use Rattle.pes.specs.Writing.{Writes};
ghost use Rattle.pes.specs.Lent.{field_in, ReadsInto};
ghost use Rattle.pes_convert.specs.Converting.{Converts, ConvertsValue};
ghost use Rattle.captions.specs.Calls.{packet_in};

use crate::packet::{LENT_SLOTS, packet_of};
use pes::{Head, LENT_UNITS};
use refusal::Written;
use sdp::{ROW_BYTES, SLOTS};

// Reads a data field, its units into a lent array.
#[unsafe(no_mangle)]
pub extern "C" fn captions_pes_read(field: &[u8], units: &mut [u8; LENT_UNITS]) -> Head
    ensures { ReadsInto field.now units.old result units.new }
{
    pes_reader::read_into(field, units)
}

// Writes a data field at the front of out.
#[unsafe(no_mangle)]
pub extern "C" fn captions_pes_write(
    data_identifier: u32,
    n: usize,
    units: &[u8; LENT_UNITS],
    out: &mut [u8],
) -> Written
    ensures { Writes (field_in data_identifier n units.now) out.old result out.new }
{
    pes_writer::write_from(data_identifier, n, units, out)
}

// Writes the data field of a packet at the front of out.
#[unsafe(no_mangle)]
pub extern "C" fn captions_pes_convert(words: &[u16], out: &mut [u8]) -> Written
    ensures { Converts words.now out.old result out.new }
{
    pes_convert::convert(words, out)
}

// The same of a packet's value.
#[unsafe(no_mangle)]
pub extern "C" fn captions_pes_convert_value(
    counter: u32,
    slots: &[u8; LENT_SLOTS],
    rows: &[[u8; ROW_BYTES]; SLOTS],
    out: &mut [u8],
) -> Written
    ensures { ConvertsValue (packet_in counter slots.now) rows.now out.old result out.new }
{
    pes_convert::convert_value(packet_of(counter, slots), rows, out)
}
