// The numbers and places of a refusal (docs/RULES.md, "Refusals").
//
// A reader or a writer says why it refuses by a reason, and where by the item that failed. Only this
// crate knows which number and which place the rules have for them.
#![tactic(auto)]

ghost use Rattle.std.specs.Prelude.{◌≡◌, ◌+◌, ◌++◌, Some, codes, decimal};
ghost use Rattle.refusal.specs.Numbers.{fixed_number, number_of, place_of, refusal_of};
ghost use Rattle.refusal.specs.Answers.{written_of};
ghost use Rattle.refusal.specs.Checks.{fit_verdict, line_verdict};

use std::fmt;

// Which fixed bit, byte or word is another.
#[derive(Clone, Copy)]
pub enum Fixed {
    Marker,
    Alignment,
    Stuffing,
    Identifier,
    FormatCode,
    RunIn,
    FramingCode,
    Footer,
    // The two reserved bits of a data unit, and its framing code.
    UnitReserved,
    UnitFraming,
    // b6 and b7 of an inner packet's LINE/FIELD word.
    LineField,
}

// Which length or count does not fit.
#[derive(Clone, Copy)]
pub enum Misfit {
    // A packet's DC against the number of its words.
    DataCount,
    // A packet's LENGTH against its DC.
    SdpLength,
    // A packet's DC against the descriptors that are not 0.
    Structures,
    // A payload's length is not one byte and whole access units.
    PayloadLength,
    // A data unit's length is not that of teletext.
    UnitLength,
    // More user words than a multipacket's DC can count.
    UserWords,
}

// Which number its layout cannot hold.
#[derive(Clone, Copy)]
pub enum Excess {
    // n above 31, m above 291.
    Count,
    Reserved,
    Flag,
    Stuffing,
    FlagWithRecords,
    // Reserved bits and flag that make user_data_type 09 or 0A.
    GroupType,
    Counter,
    Priority,
    FieldNumber,
    LineOffset,
    SlotMark,
    SlotLine,
    SlotReserved,
    SlotField,
    SlotUnwritable,
    CcValid,
    Padding,
    // A payload's flags byte.
    FlagsByte,
    CcType,
    EmData,
    // The line offset that film's caller sets.
    SetLine,
    // top_field_first or repeat_first_field.
    PictureFlag,
    // What no call leaves as film's state.
    FilmState,
    // The units of a reel's payload: none, or above 291.
    PayloadSize,
    // A reel's run that ends within an access unit.
    RunLength,
    DataIdentifier,
    DataUnitId,
    FieldParity,
    // A multipacket's priority.
    PriorityWord,
    InnerLine,
    InnerField,
    InnerIdentifier,
    // User words that are not among those that are lent.
    InnerPart,
}

// Why a check refused: finer than the numbers of RULES, since two reasons may share one.
#[derive(Clone, Copy)]
pub enum Reason {
    TooLong,
    NoStart,
    StartCode,
    SecondUnit,
    Ends,
    Unfixed(Fixed),
    FieldNumberZero,
    DescriptorLine,
    FieldFalls,
    LineDoesNotRise,
    FifthPriority,
    SampledVideo,
    WordRange,
    WordParity,
    SdpChecksum,
    Checksum,
    Unfit(Misfit),
    NoRoom,
    Unholdable(Excess),
    // GA94's third flag.
    AdditionalData,
    // A record of display field 3 in a picture that shows two.
    NotShown,
    // A record on another line than film's caller set.
    OtherLine,
    // A data_unit_id of neither teletext nor stuffing.
    UnknownUnit,
    // A unit behind the 31st of a data field.
    SurplusUnit,
    // A line_offset that no data unit may have.
    UnitLine,
    // A multipacket without an inner packet.
    NoInner,
    // An inner packet that goes beyond the user words.
    InnerOverrun,
    // An inner packet's NCS.
    InnerChecksum,
}

// What failed: the item's place, in its carriage's own measure.
#[derive(Clone, Copy)]
pub enum Item {
    // The input or the value as a whole.
    Whole,
    // In the body of a unit, whatever area it stands in: the bit at which the failing item begins.
    Bit(usize),
    // In an area: the unit whose body was being read, by its first byte, and the bit of the area
    // at which the failing item begins.
    Body { unit: usize, bit: usize },
    // In a packet or a multipacket: the word.
    Word(usize),
    // In a data field: the byte at which the failing item begins.
    Byte(usize),
    // The length of the input.
    Length(usize),
}

// What a call answers that may refuse: its value, or why it refuses and what failed.
pub type Judged<T> = Result<T, (Reason, Item)>;

// What the checks of one call found.
pub type Verdict = Judged<()>;

// What a caller is told: number and place, both 0 where the call is accepted.
#[repr(C)]
#[derive(Clone, Copy)]
pub struct Refusal {
    pub number: u8,
    pub place: usize,
}

// As the programs print it.
impl fmt::Display for Refusal {
    ghost output = { λ r. Some (codes "refused " ++ (decimal r.number ++ (codes " at " ++ decimal r.place))) };

    fn fmt<W: fmt::Write>(&self, f: &mut fmt::Formatter<W>) -> fmt::Result {
        let Refusal { number, place } = *self;
        write!(f, "refused {number} at {place}")
    }
}

// What a writer tells: a refusal, or how many bytes or words it wrote at the front of its output.
#[repr(C)]
#[derive(Clone, Copy)]
pub struct Written {
    pub refusal: Refusal,
    pub len: usize,
}

pub fn number(reason: Reason) -> u8
    ensures { result ≡ number_of reason }
{
    match reason {
        Reason::TooLong => 1,
        Reason::NoStart => 2,
        Reason::StartCode => 3,
        Reason::SecondUnit => 4,
        Reason::Ends => 5,
        Reason::Unfixed(which) => fixed_number(which),
        Reason::FieldNumberZero => 7,
        Reason::DescriptorLine => 7,
        Reason::FieldFalls => 8,
        Reason::LineDoesNotRise => 8,
        Reason::FifthPriority => 9,
        Reason::SampledVideo => 10,
        Reason::WordRange => 11,
        Reason::WordParity => 11,
        Reason::SdpChecksum => 12,
        Reason::Checksum => 12,
        Reason::Unfit(_) => 13,
        Reason::NoRoom => 14,
        Reason::Unholdable(_) => 15,
        Reason::AdditionalData => 16,
        Reason::NotShown => 21,
        Reason::OtherLine => 22,
        Reason::UnknownUnit => 23,
        Reason::SurplusUnit => 24,
        Reason::UnitLine => 7,
        Reason::NoInner => 26,
        Reason::InnerOverrun => 26,
        Reason::InnerChecksum => 12,
    }
}

// The number of a fixed bit, byte or word that is another.
fn fixed_number(which: Fixed) -> u8
    ensures { result ≡ fixed_number which }
{
    match which {
        Fixed::Identifier => 6,
        Fixed::FormatCode => 6,
        Fixed::Footer => 6,
        Fixed::Marker => 18,
        Fixed::Alignment => 19,
        Fixed::Stuffing => 19,
        Fixed::RunIn => 20,
        Fixed::FramingCode => 20,
        Fixed::UnitReserved => 6,
        Fixed::UnitFraming => 6,
        Fixed::LineField => 6,
    }
}

pub fn place(item: Item) -> usize
    ensures { result ≡ place_of item }
{
    match item {
        Item::Whole => 0,
        Item::Bit(_) => 0,
        Item::Body { unit: _, bit } => bit,
        Item::Word(word) => word,
        Item::Byte(byte) => byte,
        Item::Length(length) => length,
    }
}

// The refusal that a verdict is to a caller.
impl From<Verdict> for Refusal {
    ghost from_gives = { λ verdict told. told ≡ refusal_of verdict };

    fn from(verdict: Verdict) -> Refusal {
        match verdict {
            Ok(()) => Refusal {
                number: 0,
                place: 0,
            },
            Err((reason, item)) => Refusal {
                number: number(reason),
                place: place(item),
            },
        }
    }
}

// What a writer tells a caller of how many it wrote, or of why it refused.
impl From<Judged<usize>> for Written {
    ghost from_gives = { λ judged told. told ≡ written_of judged };

    fn from(judged: Judged<usize>) -> Written {
        match judged {
            Ok(len) => Written {
                refusal: Refusal::from(Ok(())),
                len,
            },
            Err(why) => Written {
                refusal: Refusal::from(Err(why)),
                len: 0,
            },
        }
    }
}

// 1 and 14 of a result that has a body's bytes, and those before and after it.
pub fn judge_fit(limit: usize, before: usize, body: usize, after: usize, room: usize) -> Verdict
    ensures { result ≡ fit_verdict limit (before + body + after) room }
{
    // Each is compared with what is left of the limit, so that no sum is too large to hold.
    if limit < before {
        return Err((Reason::TooLong, Item::Whole));
    }
    if limit - before < body {
        return Err((Reason::TooLong, Item::Whole));
    }
    if limit - before - body < after {
        return Err((Reason::TooLong, Item::Whole));
    }
    if room < before + body + after {
        return Err((Reason::NoRoom, Item::Whole));
    }
    Ok(())
}

// 7 of a line: it is 0, or one of those from LOW to 22.
pub fn judge_line<const LOW: u8>(line: u8, reason: Reason, item: Item) -> Verdict
    ensures { result ≡ line_verdict LOW reason item line }
{
    if line == 0 {
        return Ok(());
    }
    if line < LOW || 22 < line {
        return Err((reason, item));
    }
    Ok(())
}
