// Words that write a number.
ghost use Rattle.std.specs.Prelude.{◌≡◌, ◌≤◌, length, min, not, ltb};
ghost use Rattle.notation.specs.Inside.{TakesWord, told_if};
ghost use Rattle.notation.specs.Value.{between, capped_of, hex_digit, hex_of, is_decimal, is_hex};

use crate::words;

// No number of a unit's value is as large: a larger one becomes this.
const CAP: usize = 999_999_999;

// The next word of a text from `at` on, in decimal, and the first character behind it.
pub(crate) fn decimal_at(text: &[u8], at: usize) -> Option<(usize, usize)>
    requires { at ≤ length text.now }
    ensures { TakesWord is_decimal capped_of text.now at result }
{
    let word = words::next(text, at);
    let start = word.start;
    let end = word.end;
    let value = decimal(&text[start..end])?;
    Some((value, end))
}

// The same in hex.
pub(crate) fn hex_at(text: &[u8], at: usize) -> Option<(u8, usize)>
    requires { at ≤ length text.now }
    ensures { TakesWord is_hex hex_of text.now at result }
{
    let word = words::next(text, at);
    let start = word.start;
    let end = word.end;
    let value = hex(&text[start..end])?;
    Some((value, end))
}

// One digit or more.
fn decimal(word: &[u8]) -> Option<usize>
    ensures { result ≡ told_if (is_decimal word.now) (capped_of word.now) }
{
    if word.is_empty() {
        return None;
    }
    let mut value = 0;
    for c in word {
        if !between(b'0', b'9', *c) {
            return None;
        }
        value = capped(value * 10 + (*c - b'0') as usize);
    }
    Some(value)
}

// What is held of a number: a larger one becomes the cap.
fn capped(n: usize) -> usize
    ensures { result ≡ min n 999999999 }
{
    n.min(CAP)
}

// Two hex digits.
fn hex(word: &[u8]) -> Option<u8>
    ensures { result ≡ told_if (is_hex word.now) (hex_of word.now) }
{
    if word.len() != 2 {
        return None;
    }
    let high = hex_digit(word[0])?;
    let low = hex_digit(word[1])?;
    Some(high * 16 + low)
}

// The value of a hex digit. The definition has 16 for any other character.
fn hex_digit(c: u8) -> Option<u8>
    ensures { result ≡ told_if (not (ltb 15 (hex_digit c))) (hex_digit c) }
{
    if between(b'0', b'9', c) {
        return Some(c - b'0');
    }
    if between(b'A', b'F', c) {
        return Some(c - 0x37);
    }
    if between(b'a', b'f', c) {
        return Some(c - 0x57);
    }
    None
}

// A character from one to another.
fn between(low: u8, high: u8, c: u8) -> bool
    ensures { result ≡ between low high c }
{
    low <= c && c <= high
}
