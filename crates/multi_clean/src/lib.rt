// A quick look at a multipacket, which goes over all words at once and then from inner packet to inner packet. A yes vouches for all checks of
// reading. A no says nothing: `multi_judge` finds what is wrong, if anything is.
//
// Normative references: docs/RULES.md, "Multipacket"; document 002 (RDD 8), clause 6; SMPTE 291M.
#![tactic(auto)]

ghost use Rattle.std.specs.Prelude.{◌≡◌, ℕ, ◌%◌, ◌<◌, ◌≤◌, true, length};
ghost use Rattle.lists.specs.Part.{part};
ghost use Rattle.lists.specs.Sum.{sum as Sum·sum};
ghost use Rattle.refusal.specs.Verdict.{Accepted};
ghost use Rattle.anc.specs.Words.{parity_of};
ghost use Rattle.multi.specs.Order.{ncs_at, size_in};
ghost use Rattle.multi.specs.Inside.{own_verdict, Vouches, stray as Inside·stray, strays as Inside·strays, Framed, Filled, SumsInner};

use multi::{HEADER_WORDS, INNERS, MAX_WORDS, MIN_WORDS};

// Whether all checks of reading accept. Where it answers no, all may be well.
pub fn is_clean(words: &[u16]) -> bool
    ensures { Vouches words.now result }
{
    if !frame_holds(words) {
        return false;
    }
    rest_holds(words)
}

// What stands around the inner packets. 11 of DID and SDID follows from 6.
fn frame_holds(words: &[u16]) -> bool
    ensures { result ≡ true → Framed words.now }
{
    let n = words.len();
    if MAX_WORDS < n {
        return false;
    }
    if n <= MIN_WORDS {
        return false;
    }
    if words[0] != 0x000 {
        return false;
    }
    if words[1] != 0x3FF {
        return false;
    }
    if words[2] != 0x3FF {
        return false;
    }
    if words[3] != 0x143 {
        return false;
    }
    if words[4] != 0x203 {
        return false;
    }
    (words[5] % 256) as usize == n - 7
}

// 11 of DC and the priority, the inner packets, and CS. Which words are NCS, and so need not be words of bytes, is known once the inner packets are
// gone through. So the strays are counted first, all at once, and must be those among the NCS.
fn rest_holds(words: &[u16]) -> bool
    requires { (8 < length words.now) × (length words.now ≤ 262) }
    ensures { result ≡ true → Filled words.now }
{
    let end = words.len() - 1;
    let found = strays(&words[5..end]);
    let mut total = anc::sum(&words[3..INNERS]);
    let mut excused: u16 = 0;
    let mut at = INNERS;
    // A while: an inner packet says where the next one begins.
    while at < end {
        let Some(sum) = inner_sum(&words[at..end]) else {
            return false;
        };
        let ncs = at + HEADER_WORDS + (words[at + 3] % 256) as usize;
        total = total.wrapping_add(sum);
        excused += stray(words[ncs]);
        at = ncs + 1;
    }
    if found != excused {
        return false;
    }
    words[end] == anc::cs(total)
}

// The sum of the inner packet with which the words begin, modulo 65,536. Where it answers none, all may be well.
fn inner_sum(rest: &[u16]) -> Option<u16>
    ensures { SumsInner rest.now result }
{
    let n = rest.len();
    if n < HEADER_WORDS {
        return None;
    }
    let ncs = HEADER_WORDS + (rest[3] % 256) as usize;
    if n <= ncs {
        return None;
    }
    if rest[0] % 256 / 64 != 0 {
        return None;
    }
    let user = anc::sum(&rest[HEADER_WORDS..ncs]);
    if !own_holds(rest, user) {
        return None;
    }
    let covered = rest[1]
        .wrapping_add(rest[2])
        .wrapping_add(rest[3])
        .wrapping_add(user);
    if rest[ncs] != anc::cs(covered) {
        return None;
    }
    Some(covered.wrapping_add(rest[0]).wrapping_add(rest[ncs]))
}

// The rules over the user words of a subtitling packet, of which the caller has the sum.
fn own_holds(rest: &[u16], user: u16) -> bool
    requires in_bounds { (4 ≤ length rest.now) × (size_in rest.now ≤ length rest.now) }
    requires user_value { user ≡ Sum·sum (part 4 (ncs_at rest.now) rest.now) % 65536 }
    ensures { result ≡ true → (at : ℕ) → own_verdict at rest.now ≡ Accepted }
{
    let ncs = HEADER_WORDS + (rest[3] % 256) as usize;
    if multi::is_subtitling(rest[1] % 256, rest[2] % 256) {
        return sdp_reader::holds(&rest[HEADER_WORDS..ncs], user);
    }
    true
}

// How many of the words are not words of bytes.
fn strays(words: &[u16]) -> u16
    requires { length words.now < 65536 }
    ensures { result ≡ Inside·strays words.now }
{
    let mut n: u16 = 0;
    for &w in words {
        n += stray(w);
    }
    n
}

// 1 for a word that is not its byte's, else 0.
fn stray(w: u16) -> u16
    ensures { result ≡ Inside·stray w }
{
    if w / 256 + parity(w % 256) == 2 {
        return 0;
    }
    1
}

// The parity of a byte, in the width of a word. It stands in anc too: a public one would take every number.
fn parity(byte: u16) -> u16
    requires { byte < 256 }
    ensures { result ≡ parity_of byte }
{
    let four = byte ^ byte / 16;
    let two = four ^ four / 4;
    let one = two ^ two / 2;
    one % 2
}
