// What the slots hold: their descriptors, and which of them can be written.
ghost use Rattle.std.specs.Prelude.{◌≡◌, map};
ghost use Rattle.sdp.specs.Value.{descriptor as Value·descriptor, together};
ghost use Rattle.sdp.specs.Layout.{count as Layout·count};
ghost use Rattle.sdp.specs.User.{slot_of};
ghost use Rattle.sdp.specs.SlotVerdict.{all_zero, unwritable, slot_verdict};
ghost use Rattle.sdp.specs.Inside.{SlotVouches};

use crate::user::judge_line;
use crate::{Packet, ROW_BYTES, Slot};
use fields::OddEven;
use refusal::{Excess, Item, Reason, Verdict};

// The slot that a descriptor tells of: empty exactly when it is 0.
#[tactic(auto, using(crate::proofs::Slots::marks), unfolding(crate::specs::User::slot_of))]
pub fn slot_of(descriptor: u8) -> Slot
    ensures { result ≡ slot_of descriptor }
{
    Slot {
        full: u8::from(descriptor != 0),
        line: descriptor % 32,
        reserved: descriptor / 32 % 4,
        // b7: 1 odd, 0 even.
        field: OddEven(descriptor / 128),
    }
}

// 15 and 7 of one slot.
#[tactic(auto, unfolding(crate::specs::SlotVerdict::slot_verdict))]
pub fn judge_slot(s: Slot, row: &[u8; ROW_BYTES]) -> Verdict
    ensures { result ≡ slot_verdict (together s row.now) }
{
    if 1 < s.full {
        return Err((Reason::Unholdable(Excess::SlotMark), Item::Whole));
    }
    if 31 < s.line {
        return Err((Reason::Unholdable(Excess::SlotLine), Item::Whole));
    }
    if 3 < s.reserved {
        return Err((Reason::Unholdable(Excess::SlotReserved), Item::Whole));
    }
    if 1 < s.field.0 {
        return Err((Reason::Unholdable(Excess::SlotField), Item::Whole));
    }
    if is_unwritable(s, row) {
        return Err((Reason::Unholdable(Excess::SlotUnwritable), Item::Whole));
    }
    judge_line(s.line, Item::Whole)
}

// Whether a slot passes 15 and 7, with the mark asked first. Where it answers no, all may be well.
#[tactic(auto, using(crate::proofs::Vouched::passing))]
pub fn slot_holds(s: Slot, row: &[u8; ROW_BYTES]) -> bool
    ensures { SlotVouches (together s row.now) result }
{
    if s.full == 0 {
        return descriptor(s) == 0 && is_blank(*row);
    }
    s.full == 1
        && s.reserved <= 3
        && s.field.0 <= 1
        && matches!(s.line, 0 | 6..=22)
        && descriptor(s) != 0
}

// A full slot whose descriptor is 0, or an empty one that holds anything else.
fn is_unwritable(s: Slot, row: &[u8; ROW_BYTES]) -> bool
    ensures { result ≡ unwritable s.full (Value·descriptor s) (all_zero row.now) }
{
    let nought = descriptor(s) == 0;
    if s.full == 0 {
        !(nought && is_blank(*row))
    } else {
        nought
    }
}

// It looks at all bytes, since a loop that does not leave early takes several at a time. By value: lent, it stays a call, which is slower.
#[tactic(auto, using(crate::proofs::Blank::blanks))]
fn is_blank(row: [u8; ROW_BYTES]) -> bool
    ensures { result ≡ all_zero row }
{
    let mut any = 0;
    for j in 0..ROW_BYTES {
        any |= row[j];
    }
    any == 0
}

// The descriptor of a slot. 16 bits hold it even where its numbers are too large.
pub fn descriptor(s: Slot) -> u16
    ensures { result ≡ Value·descriptor s }
{
    u16::from(s.line) + 32 * u16::from(s.reserved) + 128 * u16::from(s.field.0)
}

// How many structures the slots bring.
pub fn count(p: Packet) -> usize
    ensures { result ≡ Layout·count (map Value·descriptor p.slots) }
{
    p.slots.iter().filter(|s| descriptor(**s) != 0).count()
}
