// Film pictures into the frames of the Line 21 RTP payload: the fields that pictures show, two or three each, become
// access units of an odd and an even field.
//
// Normative references: docs/RULES.md, "Film"; ISO/IEC 13818-2, 6.3.10; document 004, Table 2.
#![tactic(auto)]

ghost use Rattle.std.specs.Prelude.{◌≡◌};
ghost use Rattle.film.specs.Calls.{Closes};
ghost use Rattle.film.specs.Frames.{half_of, access_unit};
ghost use Rattle.film.specs.Inside.{joined, passed};

use fields::OddEven;
use line21::AccessUnit;
use refusal::Refusal;

// What one display field brings to its side of a frame: two data bytes, or nothing, which goes out invalid and zero.
pub type Slot = Option<(u8, u8)>;

// What is kept from call to call: an odd slot that waits for the even one after it.
pub type State = Option<Slot>;

// How a picture is shown, and the line whose records are carried, which the caller sets.
#[derive(Clone, Copy)]
pub struct Shown {
    pub top_field_first: bool,
    pub repeat_first_field: bool,
    pub line_offset: u8,
}

// The access units that a call sends, in order.
// An enum: with two Options in its place one could be sent behind none.
#[derive(Clone, Copy)]
pub enum Sent {
    None,
    One(AccessUnit),
    Two(AccessUnit, AccessUnit),
}

// What a call answers: a refusal, which sends nothing and keeps the state, or what is sent, and the new state.
// No Result: `refused-keeps` speaks of what a refusal sends and of the state that it keeps.
#[derive(Clone, Copy)]
pub struct Answer {
    pub refusal: Refusal,
    pub sent: Sent,
    pub state: State,
}

// What one slot sends, and what then waits.
#[derive(Clone, Copy)]
pub struct Passing {
    pub gone: Option<AccessUnit>,
    pub state: State,
}

// What a slot is in an access unit. A number beside two, as the unit has them, and no Option: `frame-both` and its kin speak of these.
#[derive(Clone, Copy)]
pub struct Half {
    pub cc_valid: u8,
    pub data_1: u8,
    pub data_2: u8,
}

// Ends a run: a slot that waits goes out with nothing beside it.
pub fn close(state: State) -> Answer
    ensures { Closes state result }
{
    let sent = match state {
        None => Sent::None,
        Some(odd) => Sent::One(frame(odd, None)),
    };
    Answer {
        refusal: Refusal::from(Ok(())),
        sent,
        state: None,
    }
}

// One slot more. An odd one waits, and sends one that waited; an even one goes out beside the one that waits.
pub fn pass(state: State, side: OddEven, slot: Slot) -> Passing
    ensures { result ≡ passed state side.0 slot }
{
    if side.0 == 0 {
        return Passing {
            gone: Some(frame(state.flatten(), slot)),
            state: None,
        };
    }
    Passing {
        gone: state.map(|odd| frame(odd, None)),
        state: Some(slot),
    }
}

pub fn half_of(slot: Slot) -> Half
    ensures { result ≡ half_of slot }
{
    match slot {
        None => Half {
            cc_valid: 0,
            data_1: 0,
            data_2: 0,
        },
        Some((data_1, data_2)) => Half {
            cc_valid: 1,
            data_1,
            data_2,
        },
    }
}

// A frame: field 1 is the odd one.
pub fn frame(odd: Slot, even: Slot) -> AccessUnit
    ensures { result ≡ access_unit odd even }
{
    join(half_of(odd), half_of(even))
}

// An access unit of two halves.
pub fn join(one: Half, two: Half) -> AccessUnit
    ensures { result ≡ joined one two }
{
    AccessUnit {
        cc_valid_1: one.cc_valid,
        cc_valid_2: two.cc_valid,
        padding: 0,
        field1_data1: one.data_1,
        field1_data2: one.data_2,
        field2_data1: two.data_1,
        field2_data2: two.data_2,
    }
}
