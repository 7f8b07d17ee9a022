// The rules over the user words of an RDD 8 (OP-47) packet, apart from the header and CS around them.
//
// Normative references: docs/RULES.md, "Subtitling packet" and "Order of checks"; document 002 (RDD 8), clause 5.
#![tactic(auto)]

ghost use Rattle.std.specs.Prelude.{◌≡◌, ◌+◌, ◌*◌, ◌%◌, ◌≤◌, ◌<◌, true, map, length, drop};
ghost use Rattle.lists.specs.Sum.{sum as Sum·sum};
ghost use Rattle.anc.specs.Words.{byte_of};
ghost use Rattle.sdp.specs.Layout.{user_length};
ghost use Rattle.refusal.specs.declared.Item.TheVariants.{Word};
ghost use Rattle.sdp.specs.User.{line_verdict, descriptors_in, descriptors_verdict, structure_verdict, structures_in, structures_verdict, head_verdict, tail_verdict, user_verdict};
ghost use Rattle.sdp_reader.specs.Inside.{Vouches, Opens};

use refusal::{Fixed, Item, Misfit, Reason, Verdict};
use sdp::{DESCRIPTORS, SLOTS, STRUCTURE_WORDS, STRUCTURES};

// The rules over user words. dc is the word of the packet in which DC stands; they follow it.
#[tactic(auto, using(crate::proofs::Judged::by_words))]
pub fn judge_user(user: &[u16], dc: u16) -> Verdict
    ensures { result ≡ user_verdict dc (map byte_of user.now) }
{
    let dc = usize::from(dc);
    judge_head(user, dc)?;
    judge_tail(user, dc)
}

// Whether user words pass all these rules. Their sum is the caller's, who needs it for a checksum too. Where it answers no, all may be well.
#[tactic(auto, using(crate::proofs::Judged::by_words))]
pub fn holds(user: &[u16], sum: u16) -> bool
    ensures { sum % 256 ≡ Sum·sum user.now % 256 → Vouches result (λ dc. user_verdict dc (map byte_of user.now)) }
{
    head_holds(user) && tail_holds(user, sum)
}

#[tactic(auto, using(crate::proofs::Judged::by_words))]
fn head_holds(user: &[u16]) -> bool
    ensures { Vouches result (λ dc. head_verdict dc (map byte_of user.now)) }
{
    opens(user) && lines_hold(user) && user.len() == 13 + STRUCTURE_WORDS * structures(user)
}

// 51, 15, LENGTH and 02.
fn opens(user: &[u16]) -> bool
    ensures { result ≡ true → Opens user.now }
{
    13 <= user.len()
        && user[0] % 256 == 0x51
        && user[1] % 256 == 0x15
        && usize::from(user[2] % 256) == user.len()
        && user[3] % 256 == 0x02
}

fn lines_hold(user: &[u16]) -> bool
    requires { 9 ≤ length user.now }
    ensures { Vouches result (λ dc. descriptors_verdict (dc + 5) (descriptors_in (map byte_of user.now))) }
{
    user[DESCRIPTORS..STRUCTURES]
        .iter()
        .all(|w| line_holds(*w % 32))
}

#[tactic(auto, unfolding(sdp::specs::User::line_verdict))]
fn line_holds(line: u16) -> bool
    ensures { Vouches result (λ at. line_verdict (Word at) line) }
{
    matches!(line, 0 | 6..=22)
}

#[tactic(auto, using(crate::proofs::Judged::by_words))]
fn tail_holds(user: &[u16], sum: u16) -> bool
    requires { length user.now ≡ user_length (structures_in (map byte_of user.now)) }
    ensures { sum % 256 ≡ Sum·sum user.now % 256 → Vouches result (λ dc. tail_verdict dc (map byte_of user.now)) }
{
    structures_hold(user, structures(user)) && user[user.len() - 4] % 256 == 0x74 && sum % 256 == 0
}

#[tactic(auto, using(crate::proofs::Judged::steps))]
fn structures_hold(user: &[u16], k: usize) -> bool
    requires k_in_bounds { 9 + 45 * k ≤ length user.now }
    requires k_bound { k < 6 }
    ensures { Vouches result (λ dc. structures_verdict (dc + 10) k (drop 9 (map byte_of user.now))) }
{
    for i in 0..k {
        if !structure_holds(user, STRUCTURES + STRUCTURE_WORDS * i) {
            return false;
        }
    }
    true
}

// The structure that begins at index i of the user words.
#[tactic(auto, using(crate::proofs::Judged::by_words))]
fn structure_holds(user: &[u16], i: usize) -> bool
    requires i_in_bounds { i + 3 ≤ length user.now }
    requires i_bound { i < 65536 }
    ensures { Vouches result (λ at. structure_verdict at (drop i (map byte_of user.now))) }
{
    user[i] % 256 == 0x55 && user[i + 1] % 256 == 0x55 && user[i + 2] % 256 == 0x27
}

// What stands before the structures, and DC against their number.
#[tactic(auto, using(crate::proofs::Judged::by_words))]
fn judge_head(user: &[u16], dc: usize) -> Verdict
    requires { dc < 65536 }
    ensures { result ≡ head_verdict dc (map byte_of user.now) }
{
    let n = user.len();
    if n < 13 {
        return Err((Reason::Ends, Item::Word(dc + 1 + n)));
    }
    if user[0] % 256 != 0x51 {
        return Err((Reason::Unfixed(Fixed::Identifier), Item::Word(dc + 1)));
    }
    if user[1] % 256 != 0x15 {
        return Err((Reason::Unfixed(Fixed::Identifier), Item::Word(dc + 2)));
    }
    if usize::from(user[2] % 256) != n {
        return Err((Reason::Unfit(Misfit::SdpLength), Item::Word(dc + 3)));
    }
    if user[3] % 256 != 0x02 {
        return Err((Reason::Unfixed(Fixed::FormatCode), Item::Word(dc + 4)));
    }
    judge_descriptors(user, dc)?;
    if n != 13 + STRUCTURE_WORDS * structures(user) {
        return Err((Reason::Unfit(Misfit::Structures), Item::Word(dc)));
    }
    Ok(())
}

// The structures, the footer and the SDP checksum.
#[tactic(auto, using(crate::proofs::Judged::by_words))]
fn judge_tail(user: &[u16], dc: usize) -> Verdict
    requires dc_bound { dc < 65536 }
    requires whole { length user.now ≡ user_length (structures_in (map byte_of user.now)) }
    ensures { result ≡ tail_verdict dc (map byte_of user.now) }
{
    let n = user.len();
    judge_structures(user, dc, structures(user))?;
    if user[n - 4] % 256 != 0x74 {
        return Err((Reason::Unfixed(Fixed::Footer), Item::Word(dc + (n - 3))));
    }
    if sdp::byte_sum(user) != 0 {
        return Err((Reason::SdpChecksum, Item::Word(dc + n)));
    }
    Ok(())
}

#[tactic(auto, using(crate::proofs::Judged::steps))]
fn judge_descriptors(user: &[u16], dc: usize) -> Verdict
    requires dc_bound { dc < 65536 }
    requires in_bounds { 9 ≤ length user.now }
    ensures { result ≡ descriptors_verdict (dc + 5) (descriptors_in (map byte_of user.now)) }
{
    for i in DESCRIPTORS..STRUCTURES {
        sdp::judge_line((user[i] % 32) as u8, Item::Word(dc + 1 + i))?;
    }
    Ok(())
}

// How many descriptors are not 0.
fn structures(user: &[u16]) -> usize
    requires { 9 ≤ length user.now }
    ensures { result ≡ structures_in (map byte_of user.now) }
{
    // A range: it is unrolled, where a chain of filter and count was not.
    let mut k = 0;
    for i in 0..SLOTS {
        if user[DESCRIPTORS + i] % 256 != 0 {
            k += 1;
        }
    }
    k
}

#[tactic(auto, using(crate::proofs::Judged::steps))]
fn judge_structures(user: &[u16], dc: usize, k: usize) -> Verdict
    requires dc_bound { dc < 65536 }
    requires k_in_bounds { 9 + 45 * k ≤ length user.now }
    requires k_bound { k < 6 }
    ensures { result ≡ structures_verdict (dc + 10) k (drop 9 (map byte_of user.now)) }
{
    for i in 0..k {
        judge_structure(user, dc, STRUCTURES + STRUCTURE_WORDS * i)?;
    }
    Ok(())
}

// 20 of the structure that begins at index i of the user words.
#[tactic(auto, using(crate::proofs::Judged::by_words))]
fn judge_structure(user: &[u16], dc: usize, i: usize) -> Verdict
    requires dc_bound { dc < 65536 }
    requires i_in_bounds { i + 3 ≤ length user.now }
    requires i_bound { i < 65536 }
    ensures { result ≡ structure_verdict (dc + 1 + i) (drop i (map byte_of user.now)) }
{
    let at = dc + 1 + i;
    if user[i] % 256 != 0x55 {
        return Err((Reason::Unfixed(Fixed::RunIn), Item::Word(at)));
    }
    if user[i + 1] % 256 != 0x55 {
        return Err((Reason::Unfixed(Fixed::RunIn), Item::Word(at + 1)));
    }
    if user[i + 2] % 256 != 0x27 {
        return Err((Reason::Unfixed(Fixed::FramingCode), Item::Word(at + 2)));
    }
    Ok(())
}
