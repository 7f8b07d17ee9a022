// Reading an area for one kind of caption content.
ghost use Rattle.std.specs.Prelude.{◌≡◌, ◌+◌, []};
ghost use Rattle.lists.specs.Part.{part};
ghost use Rattle.units.specs.declared.Found.TheVariants.{At};
ghost use Rattle.picture.specs.Reading.{placed, answer_of, captions_in, found_verdict};
ghost use Rattle.picture.specs.Lent.{head_of, ReadsInto, headed_by};
ghost use Rattle.picture.specs.Kinds.{content_verdict};
ghost use Rattle.picture.specs.Inside.{ReadsOld};

use crate::{Content, Head, Old, places};
use refusal::{Item, Reason, Refusal, Verdict};
use units::{Found, START_BYTES};

// Reads the caption unit of an area, its records into a lent array, which a refusal leaves as it is. Without such a unit the array is cleared.
// The foreign units are not looked into.
pub fn read_area<const N: usize, C: Content<N>>(s: &[u8], records: &mut [u8; N]) -> Head<C>
    ensures { ReadsInto C.KIND s.now records.old (headed_by C.told result) records.new }
{
    let found = units::scan(s, C::KIND);
    match found {
        Found::NotUnits(reason, item) => nothing(Err((reason, item))),
        Found::Nowhere => {
            lists::clear(records);
            nothing(Ok(()))
        }
        Found::At { unit, end } => read_unit(s, unit, end, records),
        Found::Many(_) => nothing(Err((Reason::SecondUnit, Item::Whole))),
    }
}

// Reads an area for one who puts another caption unit into it: the refusal that `read_area` answers, and which bytes give way.
pub fn read_old<const N: usize, C: Content<N>>(s: &[u8]) -> Old
    ensures { ReadsOld C.KIND s.now result }
{
    let found = units::scan(s, C::KIND);
    Old {
        verdict: verdict_of::<N, C>(s, found),
        spot: places::spot_of(found, s.len()),
    }
}

// The verdict, from what the search found.
fn verdict_of<const N: usize, C: Content<N>>(s: &[u8], found: Found) -> Verdict
    requires { captions_in C.KIND s.now ≡ found }
    ensures { result ≡ found_verdict C.KIND found s.now }
{
    match found {
        Found::NotUnits(reason, item) => Err((reason, item)),
        Found::Nowhere => Ok(()),
        Found::At { unit, end } => judge_unit::<N, C>(s, unit, end),
        Found::Many(_) => Err((Reason::SecondUnit, Item::Whole)),
    }
}

// Judges the only caption unit, which stands from byte `unit` up to `end`.
fn judge_unit<const N: usize, C: Content<N>>(s: &[u8], unit: usize, end: usize) -> Verdict
    requires { captions_in C.KIND s.now ≡ At unit end }
    ensures { result ≡ placed unit (content_verdict C.KIND (part (unit + 4) end s.now)) }
{
    let body = unit + START_BYTES;
    places::placed_verdict(unit, C::judge(&s[body..end]))
}

// Reads the only caption unit, which stands from byte `unit` up to `end`.
fn read_unit<const N: usize, C: Content<N>>(
    s: &[u8],
    unit: usize,
    end: usize,
    records: &mut [u8; N],
) -> Head<C>
    requires { captions_in C.KIND s.now ≡ At unit end }
    ensures { ReadsInto C.KIND s.now records.old (headed_by C.told result) records.new }
{
    let body = unit + START_BYTES;
    match C::read_into(&s[body..end], records) {
        Ok(numbers) => Head {
            refusal: Refusal::from(Ok(())),
            present: true,
            numbers,
        },
        Err((reason, item)) => nothing(Err((reason, places::placed(unit, item)))),
    }
}

// An answer with no caption unit in it.
fn nothing<const N: usize, C: Content<N>>(verdict: Verdict) -> Head<C>
    ensures { headed_by C.told result ≡ head_of C.KIND (answer_of C.KIND verdict []) }
{
    Head {
        refusal: Refusal::from(verdict),
        present: false,
        numbers: C::zeros(),
    }
}
