// The text that `cclist` prints for an answer (docs/RULES.md, "Programs").
#![tactic(auto)]

ghost use Rattle.std.specs.Prelude.{◌≡◌, [], ◌∷◌, ◌++◌, ◌<◌};
ghost use Rattle.listing.specs.Inside.{Appends};
ghost use Rattle.listing.specs.Texts.{HoldsText, decimal, digit, head_text, hex, record_text, records_text, refused_text, text_of};
ghost use Rattle.scte20.specs.Value.{held};

use picture::Answer;
use refusal::Refusal;
use scte20::{CaptionUnit, MAX_RECORDS, Record};

// The longest text, of 31 records with three digits in each number, fits.
pub const ROOM: usize = 640;

// A text: its first len bytes. A fixed buffer, since no library crate has a heap.
#[derive(Clone, Copy)]
pub struct Text {
    pub len: usize,
    pub bytes: [u8; ROOM],
}

// The text for an answer.
pub fn text_of(a: Answer) -> Text
    ensures { HoldsText (text_of a) result }
{
    let refusal = a.refusal;
    // By its number: `refused-zero` has zeros beside a refusal, so that the answer is no Result.
    if refusal.number != 0 {
        return refused(refusal);
    }
    if !a.present {
        return with(empty(), b"none\n");
    }
    let unit = a.unit;
    listed(unit)
}

// The text of a caption unit: a line for each of its records.
fn listed(unit: CaptionUnit) -> Text
    ensures { HoldsText (head_text ++ records_text (held unit).records) result }
{
    let held = &unit.records[..unit.n.min(MAX_RECORDS)];
    let mut t = with(empty(), b"priority field line data\n");
    for r in held {
        t = with_record(t, *r);
    }
    t
}

// The text of a refusal.
fn refused(r: Refusal) -> Text
    ensures { HoldsText (refused_text r) result }
{
    let t = with(empty(), b"refused ");
    let t = with_decimal(t, r.number as usize);
    let t = with(t, b" at ");
    let t = with_decimal(t, r.place);
    with_byte(t, b'\n')
}

// A text with a line for a record behind it.
fn with_record(t: Text, r: Record) -> Text
    ensures { Appends (record_text r) t result }
{
    let t = with_decimal(t, r.cc_priority as usize);
    let t = with_byte(t, b' ');
    let t = with_decimal(t, r.field_number.0 as usize);
    let t = with_byte(t, b' ');
    let t = with_decimal(t, r.line_offset as usize);
    let t = with_byte(t, b' ');
    let t = with_hex(t, r.cc_data_1);
    let t = with_byte(t, b' ');
    let t = with_hex(t, r.cc_data_2);
    with_byte(t, b'\n')
}

// A text with a number in decimal behind it.
fn with_decimal(t: Text, n: usize) -> Text
    ensures { Appends (decimal n) t result }
{
    let last = character((n % 10) as u8);
    if n < 10 {
        return with_byte(t, last);
    }
    let t = with_decimal(t, n / 10);
    with_byte(t, last)
}

// A text with a byte in two hex digits behind it.
fn with_hex(t: Text, b: u8) -> Text
    ensures { Appends (hex b) t result }
{
    let t = with_byte(t, character(b / 16));
    with_byte(t, character(b % 16))
}

// The character of a digit.
fn character(d: u8) -> u8
    requires { d < 16 }
    ensures { result ≡ digit d }
{
    let characters = b"0123456789ABCDEF";
    characters[usize::from(d)]
}

// A text with bytes behind it.
fn with(t: Text, bytes: &[u8]) -> Text
    ensures { Appends bytes.now t result }
{
    let mut r = t;
    for b in bytes {
        r = with_byte(r, *b);
    }
    r
}

// A text with a byte behind it. A full one stays as it is.
fn with_byte(t: Text, b: u8) -> Text
    ensures { Appends (b ∷ []) t result }
{
    let len = t.len;
    if ROOM <= len {
        return t;
    }
    let mut bytes = t.bytes;
    bytes[len] = b;
    Text {
        len: len + 1,
        bytes,
    }
}

// A text of no bytes.
fn empty() -> Text
    ensures { HoldsText [] result }
{
    Text {
        len: 0,
        bytes: [0; ROOM],
    }
}
