// Carrying a film picture into the frames of the Line 21 RTP payload.
//
// Normative references: docs/RULES.md, "Film"; ISO/IEC 13818-2, 6.3.10.
#![tactic(auto)]

ghost use Rattle.std.specs.Prelude.{◌≡◌, ◌≤◌};
ghost use Rattle.scte20.specs.Value.{held};
ghost use Rattle.scte20.specs.Lent.{unit_in};
ghost use Rattle.film.specs.Display.{slot_of};
ghost use Rattle.film.specs.Calls.{Shows};
ghost use Rattle.film.specs.Inside.{shown_field, one_more, added};

use fields::DisplayField;
use film::{Answer, Passing, Sent, Shown, Slot, State};
use line21::AccessUnit;
use refusal::Refusal;
use scte20::{LENT_RECORDS, Numbers};

// Carries a picture: the value of its caption unit, by numbers and a lent array, and how it is shown.
pub fn picture(state: State, how: Shown, v: Numbers, records: &[u8; LENT_RECORDS]) -> Answer
    ensures { Shows state how (unit_in v records.now) result }
{
    let verdict = film_value::judge(how, v, records);
    let refusal = Refusal::from(verdict);
    if verdict.is_err() {
        return Answer {
            refusal,
            sent: Sent::None,
            state,
        };
    }
    let one = show(state, DisplayField(1), how, v, records);
    let two = show(one.state, DisplayField(2), how, v, records);
    let sent = add(add(Sent::None, one.gone), two.gone);
    if how.repeat_first_field {
        let three = show(two.state, DisplayField(3), how, v, records);
        return Answer {
            refusal,
            sent: add(sent, three.gone),
            state: three.state,
        };
    }
    Answer {
        refusal,
        sent,
        state: two.state,
    }
}

// One display field: its slot, on its side.
fn show(
    state: State,
    field: DisplayField,
    how: Shown,
    v: Numbers,
    records: &[u8; LENT_RECORDS],
) -> Passing
    requires { v.n ≤ 31 }
    ensures { result ≡ shown_field state field.0 how (held (unit_in v records.now)).records }
{
    let side = fields::odd_even(field, how.top_field_first);
    let slot = slot_of(how.line_offset, field, v, records);
    film::pass(state, side, slot)
}

// The slot of a display field: its record on that line, or nothing.
fn slot_of(line_offset: u8, field: DisplayField, v: Numbers, records: &[u8; LENT_RECORDS]) -> Slot
    requires { v.n ≤ 31 }
    ensures { result ≡ slot_of line_offset field.0 (held (unit_in v records.now)).records }
{
    for i in 0..v.n {
        let record = scte20::record_in(records, i);
        if record.field_number == field && record.line_offset == line_offset {
            return Some((record.cc_data_1, record.cc_data_2));
        }
    }
    None
}

// What is sent in a call, slot after slot.
fn add(sent: Sent, gone: Option<AccessUnit>) -> Sent
    ensures { result ≡ added sent gone }
{
    match gone {
        None => sent,
        Some(unit) => one_more(sent, unit),
    }
}

// One access unit more. No call sends a third.
fn one_more(sent: Sent, unit: AccessUnit) -> Sent
    ensures { result ≡ one_more sent unit }
{
    match sent {
        Sent::None => Sent::One(unit),
        Sent::One(first) => Sent::Two(first, unit),
        Sent::Two(first, second) => Sent::Two(first, second),
    }
}
