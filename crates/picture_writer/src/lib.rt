// Writing a caption unit, and putting one into a picture's user data area, for SCTE 20 and for each kind of caption content.
//
// Normative references: docs/RULES.md, "Picture area", "GA94" and "Order of checks"; document 001, 5.7; document 003, Table 3.
#![tactic(auto)]

ghost use Rattle.std.specs.Prelude.{◌≡◌, ◌≤◌, length, Err};
ghost use Rattle.refusal.specs.Numbers.{refusal_of};
ghost use Rattle.kind.specs.declared.Kind.TheVariants.{Scte20};
ghost use Rattle.scte20.specs.Lent.{unit_in};
ghost use Rattle.picture.specs.Kinds.{unit_in as kind_unit_in};
ghost use Rattle.picture.specs.Writing.{Writes, Replaces};
ghost use Rattle.picture.specs.Inside.{Exchanges};

mod content;

pub use content::Writable;
use picture::Spot;
use refusal::{Item, Reason, Refusal, Written};
use scte20::{CaptionUnit, LENT_RECORDS, Numbers};
use units::START_BYTES;

// Writes a unit, with its start code and its stuffing, at the front of out.
pub fn write(unit: CaptionUnit, out: &mut [u8]) -> Written
    ensures { Writes Scte20 unit out.old result out.new }
{
    let numbers = scte20::numbers_of(unit);
    let records = scte20::bytes_of(unit);
    write_from(numbers, &records, out)
}

// The same of the value that numbers and a lent array tell.
pub fn write_from(v: Numbers, records: &[u8; LENT_RECORDS], out: &mut [u8]) -> Written
    ensures { Writes Scte20 (unit_in v records.now) out.old result out.new }
{
    write_unit(v, records, out)
}

// Writes an area with another caption unit at the front of out. The foreign units pass byte for byte.
pub fn replace(s: &[u8], unit: CaptionUnit, out: &mut [u8]) -> Written
    ensures { Replaces Scte20 s.now unit out.old result out.new }
{
    let numbers = scte20::numbers_of(unit);
    let records = scte20::bytes_of(unit);
    replace_from(s, numbers, &records, out)
}

// The same of the value that numbers and a lent array tell.
pub fn replace_from(s: &[u8], v: Numbers, records: &[u8; LENT_RECORDS], out: &mut [u8]) -> Written
    ensures { Replaces Scte20 s.now (unit_in v records.now) out.old result out.new }
{
    replace_unit(s, v, records, out)
}

// Writes the unit of a kind that numbers and a lent array tell, with its start code and its stuffing, at the front of out.
pub fn write_unit<const N: usize, C: Writable<N>>(
    v: C,
    records: &[u8; N],
    out: &mut [u8],
) -> Written
    ensures { Writes C.KIND (kind_unit_in C.KIND (C.told v) records.now) out.old result out.new }
{
    match v.write_body(records, START_BYTES, 0, out) {
        Ok(len) => {
            units::open(out);
            Written {
                refusal: Refusal::from(Ok(())),
                len: START_BYTES + len,
            }
        }
        Err(why) => refused(why),
    }
}

// Writes an area with another unit of a kind, which numbers and a lent array tell, at the front of out. The foreign units pass byte for byte.
pub fn replace_unit<const N: usize, C: Writable<N>>(
    s: &[u8],
    v: C,
    records: &[u8; N],
    out: &mut [u8],
) -> Written
    ensures { Replaces C.KIND s.now (kind_unit_in C.KIND (C.told v) records.now) out.old result out.new }
{
    let old = picture::read_old::<N, C>(s);
    match old.verdict {
        Ok(()) => exchange(s, old.spot, v, records, out),
        Err(why) => {
            // At an array of N the type alone does not tell the proof that these are bytes.
            lists::known(records);
            refused(why)
        }
    }
}

// Writes the area with the unit in place of the bytes that give way.
fn exchange<const N: usize, C: Writable<N>>(
    s: &[u8],
    spot: Spot,
    v: C,
    records: &[u8; N],
    out: &mut [u8],
) -> Written
    requires start_le_end { spot.start ≤ spot.end }
    requires end_in_bounds { spot.end ≤ length s.now }
    requires s_len_bound { length s.now ≤ 16384 }
    ensures { Exchanges C.KIND s.now spot.start spot.end (kind_unit_in C.KIND (C.told v) records.now) out.old result out.new }
{
    let Spot { start, end } = spot;
    let rest = s.len() - end;
    match v.write_body(records, start + START_BYTES, rest, out) {
        Ok(len) => {
            around::surround(s, start, end, len, out);
            Written {
                refusal: Refusal::from(Ok(())),
                len: start + START_BYTES + len + rest,
            }
        }
        Err(why) => refused(why),
    }
}

// What a refused call answers: it counted nothing. The proofs speak of its two fields, which `Written::from` would hide.
fn refused(why: (Reason, Item)) -> Written
    ensures { result ≡ record { refusal = refusal_of (Err why); len = 0 } }
{
    Written {
        refusal: Refusal::from(Err(why)),
        len: 0,
    }
}
