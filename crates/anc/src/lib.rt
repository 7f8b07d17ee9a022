// Ancillary data words of ten bits, each in a 16-bit number.
//
// Normative references: docs/RULES.md, "Subtitling packet"; SMPTE 291M.
#![tactic(auto)]

ghost use Rattle.std.specs.Prelude.{◌≡◌, ℕ, ◌+◌, ◌%◌, ◌^◌, ◌<◌, length};
ghost use Rattle.lists.specs.Part.{part};
ghost use Rattle.lists.specs.Sum.{sum as Sum·sum};
ghost use Rattle.anc.specs.Words.{parity_of, word_of, word_verdict, words_verdict, sum_verdict, checksum_of};
ghost use Rattle.anc.specs.Inside.{Vouches, VouchesSum, cs_of};

use refusal::{Item, Reason, Verdict};

// A byte as a word: b8 its even parity, b9 the inverse of b8.
#[tactic(auto, using(crate::proofs::Words::parities), unfolding(crate::specs::Words::word_of))]
pub fn word(byte: u8) -> u16
    ensures { result ≡ word_of byte }
{
    let wide = u16::from(byte);
    wide + 512 - 256 * parity(wide)
}

// 11 of the words from index from up to, not including, index to: the first that is no byte's word.
pub fn judge_words(words: &[u16], from: usize, to: usize) -> Verdict
    ensures { result ≡ words_verdict from (part from to words.now) }
{
    let Some(those) = words.get(from..to.min(words.len())) else {
        return Ok(());
    };
    judge_from(those, from)
}

// 11 of words that stand one behind the other in something longer, the first of them at place.
pub fn judge_part(words: &[u16], place: u16) -> Verdict
    ensures { result ≡ words_verdict place words.now }
{
    judge_from(words, usize::from(place))
}

// The same of both: a look, and the search for the first that is no byte's word.
#[tactic(auto, using(crate::proofs::Judged::steps))]
fn judge_from(words: &[u16], place: usize) -> Verdict
    requires { place + length words.now < 2 ^ 64 }
    ensures { result ≡ words_verdict place words.now }
{
    if are_words(words) {
        return Ok(());
    }
    for (i, &w) in words.iter().enumerate() {
        judge_word(w, place + i)?;
    }
    Ok(())
}

// Whether each is a byte's word. It looks at all of them, since a loop that does not leave early takes several at a time; where it
// answers no, none may be wrong.
#[tactic(auto, using(crate::proofs::Judged::steps))]
fn are_words(words: &[u16]) -> bool
    ensures { (place : ℕ) → Vouches place words.now result }
{
    let mut clean = true;
    for &w in words {
        // b9 and b8 are 10 or 01, so that they and the parity make 2.
        if w / 256 + parity(w % 256) != 2 {
            clean = false;
        }
    }
    clean
}

// The sum of words, modulo 65,536, if each is a byte's word: both in one walk. Where it answers none, all may be well.
#[tactic(auto, using(crate::proofs::Judged::steps, lists::proofs::Sum::sum_more))]
pub fn clean_sum(words: &[u16], from: usize, to: usize) -> Option<u16>
    ensures { VouchesSum from (part from to words.now) result }
{
    let mut clean = true;
    let mut total: u16 = 0;
    for &w in words.get(from.min(to)..to)? {
        // As in `are_words`.
        if w / 256 + parity(w % 256) != 2 {
            clean = false;
        }
        total = total.wrapping_add(w);
    }
    clean.then_some(total)
}

// The parity of a byte, in the width of a word.
#[tactic(auto, using(crate::proofs::Folds::folds))]
fn parity(byte: u16) -> u16
    requires { byte < 256 }
    ensures { result ≡ parity_of byte }
{
    let four = byte ^ byte / 16;
    let two = four ^ four / 4;
    let one = two ^ two / 2;
    one % 2
}

// 11 of one word.
#[tactic(auto, unfolding(crate::specs::Words::word_verdict))]
fn judge_word(w: u16, place: usize) -> Verdict
    ensures { result ≡ word_verdict place w }
{
    if 1023 < w {
        return Err((Reason::WordRange, Item::Word(place)));
    }
    if w != word((w % 256) as u8) {
        return Err((Reason::WordParity, Item::Word(place)));
    }
    Ok(())
}

// 11 of a CS word, which stands at index place. Its b8 is a bit of the sum and no parity; b9 is the inverse of b8.
#[tactic(auto, unfolding(crate::specs::Words::sum_verdict))]
pub fn judge_sum(w: u16, place: usize) -> Verdict
    ensures { result ≡ sum_verdict place w }
{
    if 1023 < w {
        return Err((Reason::WordRange, Item::Word(place)));
    }
    if w / 512 == w / 256 % 2 {
        return Err((Reason::WordParity, Item::Word(place)));
    }
    Ok(())
}

// The CS word of the words that it covers.
#[tactic(auto, using(crate::proofs::Words::sums_told))]
pub fn checksum(words: &[u16]) -> u16
    ensures { result ≡ checksum_of words.now }
{
    cs(sum(words))
}

// The CS word of a sum of words, which may be taken modulo any multiple of 512.
#[tactic(auto, unfolding(crate::specs::Inside::cs_of))]
pub fn cs(sum: u16) -> u16
    ensures { result ≡ cs_of sum }
{
    let low = sum % 512;
    low + 512 * (1 - low / 256)
}

// The sum of words, modulo 65,536. 512 and 256 divide that, so that the sums of their low nine bits and of their bytes follow.
#[tactic(auto, using(lists::proofs::Sum::sum_more))]
pub fn sum(words: &[u16]) -> u16
    ensures { result ≡ Sum·sum words.now % 65536 }
{
    let mut total: u16 = 0;
    for &w in words {
        total = total.wrapping_add(w);
    }
    total
}
