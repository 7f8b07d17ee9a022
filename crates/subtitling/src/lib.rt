// The RDD 8 (OP-47) subtitling packet: the ancillary data words that carry a subtitling distribution packet, and the order of checks over them.
//
// Normative references: docs/RULES.md, "Subtitling packet" and "Order of checks"; document 002 (RDD 8), clause 4; SMPTE 291M.
#![tactic(auto)]

ghost use Rattle.std.specs.Prelude.{◌≡◌, ◌≤◌, true, length};
ghost use Rattle.subtitling.specs.Reading.{form_verdict, header_verdict, checksum_verdict, packet_verdict};
ghost use Rattle.subtitling.specs.Inside.{Vouches, Surround};

use refusal::{Fixed, Item, Misfit, Reason, Refusal, Verdict};
use sdp::Packet;

pub const MIN_WORDS: usize = 20;

pub const MAX_WORDS: usize = 245;

// A packet: the flag, DID, SDID, DC, the user words, CS.
pub const USER: usize = 6;

const DID: u16 = 0x143;

const SDID: u16 = 0x102;

// What reading answers: the numbers, or a refusal and zeros. A Result has no layout in C.
#[repr(C)]
#[derive(Clone, Copy)]
pub struct Answer {
    pub refusal: Refusal,
    pub packet: Packet,
}

// RULES, "Order of checks": the whole order of reading a packet.
pub fn judge(words: &[u16]) -> Verdict
    ensures { result ≡ packet_verdict words.now }
{
    if holds(words) {
        return Ok(());
    }
    in_order(words)
}

// Whether all words pass all checks, in the order that takes the fewest steps. Where it answers no, all may be well.
fn holds(words: &[u16]) -> bool
    ensures { Vouches words.now result }
{
    if !surround_holds(words) {
        return false;
    }
    let n = words.len();
    let Some(all) = anc::clean_sum(words, 3, n - 1) else {
        return false;
    };
    // What the user words add up to: DID, SDID and DC are taken off.
    let user = all.wrapping_sub(DID + SDID).wrapping_sub(words[5]);
    words[n - 1] == anc::cs(all) && sdp_reader::holds(&words[USER..n - 1], user)
}

// The length, the flag, DID, SDID and DC.
fn surround_holds(words: &[u16]) -> bool
    ensures { result ≡ true → Surround words.now }
{
    let n = words.len();
    MIN_WORDS <= n
        && n <= MAX_WORDS
        && words[0] == 0x000
        && words[1] == 0x3FF
        && words[2] == 0x3FF
        && words[3] == DID
        && words[4] == SDID
        && usize::from(words[5] % 256) == n - 7
}

// The checks in the order of RULES.
#[tactic(auto, using(crate::proofs::Vouched::ordering), unfolding(crate::specs::Reading::packet_verdict))]
fn in_order(words: &[u16]) -> Verdict
    ensures { result ≡ packet_verdict words.now }
{
    judge_form(words)?;
    judge_header(words)?;
    sdp_reader::judge_user(&words[USER..words.len() - 1], 5)?;
    judge_checksum(words)
}

// 1, 5 under 20 words, 2, then 11 from DID to CS.
#[tactic(auto, using(crate::proofs::Vouched::ordering), unfolding(crate::specs::Reading::form_verdict))]
fn judge_form(words: &[u16]) -> Verdict
    ensures { result ≡ form_verdict words.now }
{
    let n = words.len();
    if MAX_WORDS < n {
        return Err((Reason::TooLong, Item::Length(n)));
    }
    if n < MIN_WORDS {
        return Err((Reason::Ends, Item::Length(n)));
    }
    if words[0] != 0x000 {
        return Err((Reason::NoStart, Item::Word(0)));
    }
    if words[1] != 0x3FF {
        return Err((Reason::NoStart, Item::Word(1)));
    }
    if words[2] != 0x3FF {
        return Err((Reason::NoStart, Item::Word(2)));
    }
    anc::judge_words(words, 3, n - 1)?;
    anc::judge_sum(words[n - 1], n - 1)
}

// DID, SDID 6; DC 13.
#[tactic(auto, unfolding(crate::specs::Reading::header_verdict))]
fn judge_header(words: &[u16]) -> Verdict
    requires { 20 ≤ length words.now }
    ensures { result ≡ header_verdict words.now }
{
    if words[3] != DID {
        return Err((Reason::Unfixed(Fixed::Identifier), Item::Word(3)));
    }
    if words[4] != SDID {
        return Err((Reason::Unfixed(Fixed::Identifier), Item::Word(4)));
    }
    if usize::from(words[5] % 256) != words.len() - 7 {
        return Err((Reason::Unfit(Misfit::DataCount), Item::Word(5)));
    }
    Ok(())
}

// CS 12.
#[tactic(auto, unfolding(crate::specs::Reading::checksum_verdict))]
fn judge_checksum(words: &[u16]) -> Verdict
    requires { 20 ≤ length words.now }
    ensures { result ≡ checksum_verdict words.now }
{
    let n = words.len();
    if words[n - 1] != anc::checksum(&words[3..n - 1]) {
        return Err((Reason::Checksum, Item::Word(n - 1)));
    }
    Ok(())
}
