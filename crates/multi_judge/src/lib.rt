// The checks of reading a multipacket: around the inner packets, then inner packet by inner packet.
//
// Normative references: docs/RULES.md, "Multipacket" and "Order of checks"; document 002 (RDD 8), clause 6; SMPTE 291M.
#![tactic(auto)]

ghost use Rattle.std.specs.Prelude.{◌≡◌, ◌+◌, ◌≤◌, ◌<◌, length};
ghost use Rattle.multi.specs.Order.{size_in};
ghost use Rattle.multi.specs.Reading.{inner_verdict, inners_verdict, outer_verdict, multi_verdict};
ghost use Rattle.multi.specs.Inside.{outer_form, outer_header, inner_form, inner_rules, own_verdict};

use multi::{HEADER_WORDS, INNER_WORDS, INNERS, MAX_WORDS, MIN_WORDS};
use refusal::{Fixed, Item, Misfit, Reason, Verdict};

// All checks of a multipacket.
pub fn judge(words: &[u16]) -> Verdict
    ensures { result ≡ multi_verdict words.now }
{
    if multi_clean::is_clean(words) {
        return Ok(());
    }
    in_order(words)
}

// RULES, "Order of checks": which of them refuses, if one does.
fn in_order(words: &[u16]) -> Verdict
    ensures { result ≡ multi_verdict words.now }
{
    judge_form(words)?;
    judge_header(words)?;
    let n = words.len();
    judge_inners(&words[INNERS..n - 1], INNERS as u16)?;
    if words[n - 1] != anc::checksum(&words[3..n - 1]) {
        return Err((Reason::Checksum, Item::Word(n - 1)));
    }
    Ok(())
}

// 1, 5 under 8 words, 2, then 11 of DID, SDID, DC, the priority and CS.
#[tactic(auto, unfolding(multi::specs::Inside::outer_form))]
fn judge_form(words: &[u16]) -> Verdict
    ensures { result ≡ outer_form words.now }
{
    let n = words.len();
    if MAX_WORDS < n {
        return Err((Reason::TooLong, Item::Length(n)));
    }
    if n < MIN_WORDS {
        return Err((Reason::Ends, Item::Length(n)));
    }
    if words[0] != 0x000 {
        return Err((Reason::NoStart, Item::Word(0)));
    }
    if words[1] != 0x3FF {
        return Err((Reason::NoStart, Item::Word(1)));
    }
    if words[2] != 0x3FF {
        return Err((Reason::NoStart, Item::Word(2)));
    }
    anc::judge_words(words, 3, INNERS)?;
    anc::judge_sum(words[n - 1], n - 1)
}

// DID, SDID 6; DC 13; no inner packet 26.
#[tactic(auto, unfolding(multi::specs::Inside::outer_header))]
fn judge_header(words: &[u16]) -> Verdict
    requires { 8 ≤ length words.now }
    ensures { result ≡ outer_header words.now }
{
    let n = words.len();
    if words[3] != 0x143 {
        return Err((Reason::Unfixed(Fixed::Identifier), Item::Word(3)));
    }
    if words[4] != 0x203 {
        return Err((Reason::Unfixed(Fixed::Identifier), Item::Word(4)));
    }
    if (words[5] % 256) as usize != n - 7 {
        return Err((Reason::Unfit(Misfit::DataCount), Item::Word(5)));
    }
    if n == MIN_WORDS {
        return Err((Reason::NoInner, Item::Word(INNERS)));
    }
    Ok(())
}

// The inner packets, of which the first stands in word `at`. Those behind it are judged by this function itself, on the part of the words that
// remains: it is shorter by the first, so that this ends.
// A recursion: the form that RULES, F-6, names.
fn judge_inners(rest: &[u16], at: u16) -> Verdict
    requires { at + length rest.now < 65536 }
    ensures { result ≡ inners_verdict at rest.now }
{
    let n = rest.len();
    if n == 0 {
        return Ok(());
    }
    judge_inner(rest, at)?;
    let size = INNER_WORDS as u16 + rest[3] % 256;
    judge_inners(&rest[size as usize..n], at + size)
}

// The inner packet with which the words begin.
fn judge_inner(rest: &[u16], at: u16) -> Verdict
    requires { at + length rest.now < 65536 }
    ensures { result ≡ inner_verdict at rest.now }
{
    judge_words(rest, at)?;
    judge_rules(rest, at)
}

// 26 where its header or its words go beyond those that are left; then 11 from LINE/FIELD to NCS.
#[tactic(auto, unfolding(multi::specs::Inside::inner_form))]
fn judge_words(rest: &[u16], at: u16) -> Verdict
    requires { at + length rest.now < 65536 }
    ensures { result ≡ inner_form at rest.now }
{
    let n = rest.len();
    if n < HEADER_WORDS {
        return Err((Reason::InnerOverrun, Item::Word(at as usize)));
    }
    let ncs = HEADER_WORDS + (rest[3] % 256) as usize;
    let place = at as usize;
    if n <= ncs {
        return Err((Reason::InnerOverrun, Item::Word(place)));
    }
    anc::judge_part(&rest[0..ncs], at)?;
    anc::judge_sum(rest[ncs], at as usize + ncs)
}

// 6 of LINE/FIELD, the rules over the user words of a subtitling packet, and 12 of NCS.
#[tactic(auto, unfolding(multi::specs::Inside::inner_rules))]
fn judge_rules(rest: &[u16], at: u16) -> Verdict
    requires in_bounds { 4 ≤ length rest.now }
    requires rest_in_bounds { size_in rest.now ≤ length rest.now }
    requires rest_bound { at + length rest.now < 65536 }
    ensures { result ≡ inner_rules at rest.now }
{
    let ncs = HEADER_WORDS + (rest[3] % 256) as usize;
    if rest[0] % 256 / 64 != 0 {
        return Err((Reason::Unfixed(Fixed::LineField), Item::Word(at as usize)));
    }
    judge_own(rest, at)?;
    let place = at as usize + ncs;
    if rest[ncs] != anc::checksum(&rest[1..ncs]) {
        return Err((Reason::InnerChecksum, Item::Word(place)));
    }
    Ok(())
}

// The rules over the user words of a subtitling packet. Other packets are carried.
fn judge_own(rest: &[u16], at: u16) -> Verdict
    requires in_bounds { 4 ≤ length rest.now }
    requires rest_in_bounds { size_in rest.now ≤ length rest.now }
    requires rest_bound { at + length rest.now < 65536 }
    ensures { result ≡ own_verdict at rest.now }
{
    let ncs = HEADER_WORDS + (rest[3] % 256) as usize;
    if multi::is_subtitling(rest[1] % 256, rest[2] % 256) {
        return sdp_reader::judge_user(&rest[HEADER_WORDS..ncs], at + 3);
    }
    Ok(())
}
