// Where things stand in an area, for each kind of caption unit.
ghost use Rattle.std.specs.Prelude.{◌≡◌, ◌≤◌};
ghost use Rattle.picture.specs.Reading.{placed as placed_of, placed_item};
ghost use Rattle.picture.specs.Inside.{Near, NearVerdict, spot_of};

use crate::Spot;
use refusal::{Item, Verdict};
use units::{Found, START_BYTES};

// Where the new unit goes: in the place of the only one that was found, else behind the last byte.
pub(crate) fn spot_of(found: Found, len: usize) -> Spot
    ensures { result ≡ spot_of found len }
{
    match found {
        Found::At { unit, end } => Spot { start: unit, end },
        Found::Nowhere | Found::NotUnits(_, _) | Found::Many(_) => Spot {
            start: len,
            end: len,
        },
    }
}

// The verdict on the body of the unit at byte `unit`, as one on the area.
pub(crate) fn placed_verdict(unit: usize, verdict: Verdict) -> Verdict
    requires unit_bound { unit ≤ 16384 }
    requires near_verdict { NearVerdict verdict }
    ensures { result ≡ placed_of unit verdict }
{
    // A match: a closure for map_err would repeat both of the clauses above.
    match verdict {
        Ok(()) => verdict,
        Err((reason, item)) => Err((reason, placed(unit, item))),
    }
}

// An item of the body of the unit at byte `unit`, as one of the area.
pub(crate) fn placed(unit: usize, item: Item) -> Item
    requires unit_bound { unit ≤ 16384 }
    requires near { Near item }
    ensures { result ≡ placed_item unit item }
{
    match item {
        Item::Bit(bit) => Item::Body {
            unit,
            bit: 8 * (unit + START_BYTES) + bit,
        },
        Item::Whole
        | Item::Body { unit: _, bit: _ }
        | Item::Word(_)
        | Item::Byte(_)
        | Item::Length(_) => item,
    }
}
