// Film over plain numbers and lent memory, as the C interface has it: the state as four bytes that the caller keeps, and
// the access units that a call sends in a lent array.
//
// Normative references: docs/RULES.md, "Film".
#![tactic(auto)]

ghost use Rattle.std.specs.Prelude.{◌≡◌, ◌∷◌, ◌++◌, length};
ghost use Rattle.refusal.specs.Verdict.{Refused};
ghost use Rattle.refusal.specs.declared.Reason.TheVariants.{Unholdable};
ghost use Rattle.refusal.specs.declared.Item.TheVariants.{Whole};
ghost use Rattle.scte20.specs.Lent.{unit_in};
ghost use Rattle.line21.specs.Lent.{access_unit_bytes};
ghost use Rattle.film.specs.Calls.{units_sent};
ghost use Rattle.film_lent.specs.Lent.{half_bytes, state_bytes, sent_bytes, state_in, PictureInto, CloseInto};
ghost use Rattle.film_lent.specs.Inside.{refused_head, Stores, PutsOddFirst, PutsFrames};

use film::{Answer, Half, Sent, Shown, State};
use film_value::Halves;
use line21::{AccessUnit, LENT_UNIT};
use refusal::{Excess, Item, Reason, Refusal};
use scte20::{LENT_RECORDS, Numbers};

// A state: whether a slot waits, its cc_valid, and its two data bytes. All zero, nothing waits.
pub const LENT_FILM: usize = 4;

// The most access units that a call sends.
pub const MAX_SENT: usize = 2;

// Those in a lent array, seven bytes each.
pub const LENT_SENT: usize = 14;

// What a call answers: a refusal, or how many access units it sent. No Result: C has this layout.
#[repr(C)]
#[derive(Clone, Copy)]
pub struct Head {
    pub refusal: Refusal,
    pub m: usize,
}

// Carries a picture. A number that a flag or a line cannot hold is refused, not cut, and so are bytes that no call
// leaves as a state.
pub fn picture_into(
    film: &mut [u8; LENT_FILM],
    top_field_first: u32,
    repeat_first_field: u32,
    line_offset: u32,
    v: Numbers,
    records: &[u8; LENT_RECORDS],
    units: &mut [u8; LENT_SENT],
) -> Head
    ensures { PictureInto film.old top_field_first repeat_first_field line_offset (unit_in v records.now) units.old result film.new units.new }
{
    let Some(state) = state_in(film) else {
        return refused(Excess::FilmState);
    };
    if 1 < top_field_first || 1 < repeat_first_field {
        return refused(Excess::PictureFlag);
    }
    let how = Shown {
        top_field_first: top_field_first == 1,
        repeat_first_field: repeat_first_field == 1,
        line_offset: scte20::narrow(line_offset as usize),
    };
    if let Some(halves) = film_value::gather(how, v, records) {
        return Head {
            refusal: Refusal::from(Ok(())),
            m: put_frames(how, halves, film, units),
        };
    }
    store(film_picture::picture(state, how, v, records), film, units)
}

// Ends a run.
pub fn close_into(film: &mut [u8; LENT_FILM], units: &mut [u8; LENT_SENT]) -> Head
    ensures { CloseInto film.old units.old result film.new units.new }
{
    let Some(state) = state_in(film) else {
        return refused(Excess::FilmState);
    };
    store(film::close(state), film, units)
}

// The frames of a picture whose display fields bring these halves, and what then waits.
fn put_frames(
    how: Shown,
    halves: Halves,
    film: &mut [u8; LENT_FILM],
    units: &mut [u8; LENT_SENT],
) -> usize
    ensures { PutsFrames how.top_field_first how.repeat_first_field halves.one halves.two halves.three film.old result film.new units.new }
{
    let waiting = film[0];
    let odd = Half {
        cc_valid: film[1],
        data_1: film[2],
        data_2: film[3],
    };
    match (how.top_field_first, how.repeat_first_field) {
        (true, true) => {
            *film = waiting_bytes(1, halves.three);
            put_odd_first(waiting, odd, halves.one, halves.two, units)
        }
        (true, false) => {
            *film = waiting_bytes(0, film::half_of(None));
            put_odd_first(waiting, odd, halves.one, halves.two, units)
        }
        (false, true) => {
            *film = waiting_bytes(0, film::half_of(None));
            let second = film::join(halves.two, halves.three);
            put_two(film::join(odd, halves.one), second, units);
            2
        }
        (false, false) => {
            *film = waiting_bytes(1, halves.two);
            put_two(film::join(odd, halves.one), AccessUnit::default(), units);
            1
        }
    }
}

// The frames where the first display field is odd: a slot that waits goes out alone.
fn put_odd_first(waiting: u8, odd: Half, one: Half, two: Half, units: &mut [u8; LENT_SENT]) -> usize
    ensures { PutsOddFirst waiting odd one two result units.new }
{
    if waiting == 1 {
        let alone = film::join(odd, film::half_of(None));
        put_two(alone, film::join(one, two), units);
        return 2;
    }
    put_two(film::join(one, two), AccessUnit::default(), units);
    1
}

// A refusal stores nothing.
fn store(answer: Answer, film: &mut [u8; LENT_FILM], units: &mut [u8; LENT_SENT]) -> Head
    ensures { Stores answer film.old units.old result film.new units.new }
{
    let refusal = answer.refusal;
    // By its number: `refused-keeps` has the state beside a refusal, so that the answer is no Result.
    if refusal.number != 0 {
        return Head { refusal, m: 0 };
    }
    *film = bytes_of(answer.state);
    let m = put_sent(answer.sent, units);
    Head { refusal, m }
}

fn refused(which: Excess) -> Head
    ensures { result ≡ refused_head (Refused (Unholdable which) Whole) }
{
    let verdict = Err((Reason::Unholdable(which), Item::Whole));
    Head {
        refusal: Refusal::from(verdict),
        m: 0,
    }
}

// The state that the bytes tell, where some state has them.
#[tactic(auto, unfolding(crate::specs::Lent::state_from))]
fn state_in(film: &[u8; LENT_FILM]) -> Option<State>
    ensures { result ≡ state_in film.now }
{
    match *film {
        // Nothing waits.
        [0, 0, 0, 0] => Some(None),
        // An invalid slot does.
        [1, 0, 0, 0] => Some(Some(None)),
        // A pair does.
        [1, 1, data_1, data_2] => Some(Some(Some((data_1, data_2)))),
        _ => None,
    }
}

fn bytes_of(state: State) -> [u8; LENT_FILM]
    ensures { result ≡ state_bytes state }
{
    match state {
        None => waiting_bytes(0, film::half_of(None)),
        Some(slot) => waiting_bytes(1, film::half_of(slot)),
    }
}

fn waiting_bytes(waiting: u8, half: Half) -> [u8; LENT_FILM]
    ensures { result ≡ waiting ∷ half_bytes half }
{
    [waiting, half.cc_valid, half.data_1, half.data_2]
}

// All places are stored to: the units that are sent, and zeros behind them.
fn put_sent(sent: Sent, units: &mut [u8; LENT_SENT]) -> usize
    ensures value { result ≡ length (units_sent sent) }
    ensures units_after { units.new ≡ sent_bytes (units_sent sent) }
{
    match sent {
        Sent::None => {
            put_two(AccessUnit::default(), AccessUnit::default(), units);
            0
        }
        Sent::One(first) => {
            put_two(first, AccessUnit::default(), units);
            1
        }
        Sent::Two(first, second) => {
            put_two(first, second, units);
            2
        }
    }
}

fn put_two(a: AccessUnit, b: AccessUnit, units: &mut [u8; LENT_SENT])
    ensures { units.new ≡ access_unit_bytes a ++ access_unit_bytes b }
{
    units[..LENT_UNIT].copy_from_slice(&line21::lent_bytes(a));
    units[LENT_UNIT..].copy_from_slice(&line21::lent_bytes(b));
}
