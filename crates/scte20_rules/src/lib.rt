// The rules over an SCTE 20 record and those before it, which reading and writing share.
//
// Normative references: docs/RULES.md, "Picture area" and "Order of checks"; document 001, 5.8.
#![tactic(auto)]

ghost use Rattle.std.specs.Prelude.{◌≡◌, ◌+◌, min, []};
ghost use Rattle.scte20.specs.Value.{count_if};
ghost use Rattle.scte20.specs.Inside.{last_of, last_after, last_verdict};

use fields::DisplayField;
use refusal::{Item, Reason, Verdict};
use scte20::{Last, Record};

// 7, 8 and 9 of a record whose construct begins at bit `at`.
#[tactic(auto, unfolding(scte20::specs::Inside::last_verdict))]
pub fn judge_record(last: Last, r: Record, at: u32) -> Verdict
    ensures { result ≡ last_verdict at last r }
{
    let at = at as usize;
    let before = last.field_number.0;
    let field = r.field_number.0;
    if field < 1 {
        return Err((Reason::FieldNumberZero, Item::Bit(at + 2)));
    }
    if field < before {
        return Err((Reason::FieldFalls, Item::Bit(at + 2)));
    }
    // In a new field any line may come first, and none of its records is before.
    if before < field {
        return Ok(());
    }
    if r.line_offset <= last.line_offset {
        return Err((Reason::LineDoesNotRise, Item::Bit(at + 4)));
    }
    if r.cc_priority != 0 {
        return Ok(());
    }
    // Up to four lines of a display field may have priority 0 (001, 5.8.1).
    if 3 < last.urgent {
        return Err((Reason::FifthPriority, Item::Bit(at)));
    }
    Ok(())
}

// Before the first record. No record has field 0. No `Default`, and `after` no method: docs/MATRIX.md names these functions.
pub fn none_yet() -> Last
    ensures { result ≡ last_of [] }
{
    Last {
        field_number: DisplayField(0),
        line_offset: 0,
        urgent: 0,
    }
}

// The same after one record more. The count of priority 0 starts again at each field, and goes no further than four: a fifth is refused.
#[tactic(auto, unfolding(scte20::specs::Inside::last_after))]
pub fn after(last: Last, r: Record) -> Last
    ensures { result ≡ last_after last r }
{
    let field_number = r.field_number;
    let kept = if last.field_number.0 == field_number.0 {
        last.urgent
    } else {
        0
    };
    let more = u8::from(r.cc_priority == 0);
    Last {
        field_number,
        line_offset: r.line_offset,
        urgent: kept.saturating_add(more).min(4),
    }
}
