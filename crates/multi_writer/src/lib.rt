// Writing a multipacket, from heads and user words that are lent.
//
// Normative references: docs/RULES.md, "Multipacket" and "Order of checks"; document 002 (RDD 8), clause 6; SMPTE 291M.
#![tactic(auto)]

ghost use Rattle.std.specs.Prelude.{◌≡◌, ◌+◌, ◌*◌, ◌%◌, ◌<◌, ◌≤◌, [], ◌∷◌, map, length, drop, slice_index};
ghost use Rattle.lists.specs.Sum.{sum};
ghost use Rattle.lists.specs.Room.{over};
ghost use Rattle.refusal.specs.Verdict.{Accepted};
ghost use Rattle.anc.specs.Words.{word_of};
ghost use Rattle.multi.specs.Layout.{layout_inner, layout_inners};
ghost use Rattle.multi.specs.Lent.{inner_of};
ghost use Rattle.multi.specs.Writing.{head_verdict, heads_verdict, value_verdict, Writes};
ghost use Rattle.multi.specs.Inside.{heads_words, CountsUser, header_words};

use multi::{HEAD, HEADER_WORDS, INNER_WORDS, INNERS, MAX_USER_WORDS};
use refusal::{Excess, Item, Misfit, Reason, Refusal, Verdict, Written};

// Writes the multipacket of a priority and of an inner packet for each head at the front of out. A head says where in `words` the user words of
// its packet begin, and how many they are.
pub fn write_from(priority: u32, heads: &[[u16; HEAD]], words: &[u16], out: &mut [u16]) -> Written
    ensures { Writes (record { priority = priority; heads = heads.now; words = words.now }) out.old result out.new }
{
    let verdict = judge_value(priority, heads, words, out.len());
    let refusal = Refusal::from(verdict);
    if verdict.is_err() {
        return Written { refusal, len: 0 };
    }
    let user = user_words(heads);
    let front = put_header(priority as u8, user as u8, out);
    let inners = put_inners(heads, words, &mut out[INNERS..]);
    out[6 + user] = anc::cs(front.wrapping_add(inners));
    Written {
        refusal,
        len: 7 + user,
    }
}

// RULES, "Order of checks": 15 of the priority; 26; 15, 11 and a subtitling packet's own, inner packet by inner packet; 13; 14.
fn judge_value(priority: u32, heads: &[[u16; HEAD]], words: &[u16], room: usize) -> Verdict
    ensures { result ≡ value_verdict (record { priority = priority; heads = heads.now; words = words.now }) room }
{
    if 255 < priority {
        return Err((Reason::Unholdable(Excess::PriorityWord), Item::Whole));
    }
    if heads.is_empty() {
        return Err((Reason::NoInner, Item::Whole));
    }
    for i in 0..heads.len() {
        judge_head(heads[i], words)?;
    }
    let user = user_words(heads);
    if MAX_USER_WORDS < user {
        return Err((Reason::Unfit(Misfit::UserWords), Item::Whole));
    }
    if room < 7 + user {
        return Err((Reason::NoRoom, Item::Whole));
    }
    Ok(())
}

// One inner packet: 15, 11, and the rules over the user words of a subtitling packet.
fn judge_head(head: [u16; HEAD], words: &[u16]) -> Verdict
    ensures { result ≡ head_verdict words.now head }
{
    if 31 < head[0] {
        return Err((Reason::Unholdable(Excess::InnerLine), Item::Whole));
    }
    if 1 < head[1] {
        return Err((Reason::Unholdable(Excess::InnerField), Item::Whole));
    }
    if 255 < head[2] {
        return Err((Reason::Unholdable(Excess::InnerIdentifier), Item::Whole));
    }
    if 255 < head[3] {
        return Err((Reason::Unholdable(Excess::InnerIdentifier), Item::Whole));
    }
    let at = head[4] as usize;
    let end = at + head[5] as usize;
    if words.len() < end {
        return Err((Reason::Unholdable(Excess::InnerPart), Item::Whole));
    }
    multi::unplaced(anc::judge_part(&words[at..end], 0))?;
    if multi::is_subtitling(head[2], head[3]) {
        return multi::unplaced(sdp_reader::judge_user(&words[at..end], 0));
    }
    Ok(())
}

// How many user words the multipacket has, the priority among them. It stops counting above 255.
fn user_words(heads: &[[u16; HEAD]]) -> usize
    ensures { CountsUser heads.now result }
{
    let mut user = 1;
    for i in 0..heads.len() {
        if MAX_USER_WORDS < user {
            return user;
        }
        user += inner_words(heads[i]);
    }
    user
}

// How many words an inner packet has, by its head.
fn inner_words(head: [u16; HEAD]) -> usize
    ensures value { result ≡ 5 + slice_index head 5 }
    ensures upper_bound { result < 65541 }
{
    INNER_WORDS + head[5] as usize
}

// The flag, DID, SDID, DC and the priority. Answers the sum of those that CS covers.
fn put_header(priority: u8, dc: u8, out: &mut [u16]) -> u16
    requires { 7 ≤ length out.old }
    ensures out_after { out.new ≡ over (0x000 ∷ 0x3FF ∷ 0x3FF ∷ map word_of (0x43 ∷ 0x03 ∷ dc ∷ priority ∷ [])) out.old }
    ensures value { result ≡ sum (map word_of (0x43 ∷ 0x03 ∷ dc ∷ priority ∷ [])) }
{
    let count = anc::word(dc);
    let rank = anc::word(priority);
    out[0] = 0x000;
    out[1] = 0x3FF;
    out[2] = 0x3FF;
    out[3] = 0x143;
    out[4] = 0x203;
    out[5] = count;
    out[6] = rank;
    0x143 + 0x203 + count + rank
}

// The inner packets, one behind the other. Answers their sum, modulo 65,536.
fn put_inners(heads: &[[u16; HEAD]], words: &[u16], out: &mut [u16]) -> u16
    requires heads_value { heads_verdict words.now heads.now ≡ Accepted }
    requires heads_bound { heads_words heads.now < 255 }
    requires heads_in_bounds { heads_words heads.now ≤ length out.old }
    ensures out_after { out.new ≡ over (layout_inners (map (inner_of words.now) heads.now)) out.old }
    ensures value { result ≡ sum (layout_inners (map (inner_of words.now) heads.now)) % 65536 }
{
    let mut total: u16 = 0;
    let mut at = 0;
    for i in 0..heads.len() {
        let inner = put_inner(heads[i], words, &mut out[at..]);
        total = total.wrapping_add(inner);
        at += inner_words(heads[i]);
    }
    total
}

// One inner packet. Its user words are words of bytes already, and are stored as they are. Answers its sum, modulo 65,536.
fn put_inner(head: [u16; HEAD], words: &[u16], out: &mut [u16]) -> u16
    requires head_value { head_verdict words.now head ≡ Accepted }
    requires head_bound { slice_index head 5 < 256 }
    requires head_in_bounds { 5 + slice_index head 5 ≤ length out.old }
    ensures out_after { out.new ≡ over (layout_inner (inner_of words.now head)) out.old }
    ensures value { result ≡ sum (layout_inner (inner_of words.now head)) % 65536 }
{
    let at = head[4] as usize;
    let end = at + head[5] as usize;
    let ncs = HEADER_WORDS + head[5] as usize;
    let ids = put_head(head, out);
    let user = carry(&words[at..end], &mut out[HEADER_WORDS..ncs]);
    let covered = ids.wrapping_add(user);
    let word = anc::cs(covered);
    out[ncs] = word;
    covered.wrapping_add(word).wrapping_add(out[0])
}

// LINE/FIELD, NDID, NSDID and NDC. Answers the sum of those that NCS covers.
fn put_head(head: [u16; HEAD], out: &mut [u16]) -> u16
    requires head_bound { slice_index head 0 + 32 * slice_index head 1 < 64 }
    requires head_bound_2 { (slice_index head 2 < 256) × (slice_index head 3 < 256) × (slice_index head 5 < 256) }
    requires in_bounds { 4 ≤ length out.old }
    ensures out_after { out.new ≡ over (header_words head) out.old }
    ensures value { result ≡ sum (drop 1 (header_words head)) }
{
    let ndid = anc::word(head[2] as u8);
    let nsdid = anc::word(head[3] as u8);
    let ndc = anc::word(head[5] as u8);
    out[0] = anc::word((head[0] + 32 * head[1]) as u8);
    out[1] = ndid;
    out[2] = nsdid;
    out[3] = ndc;
    ndid + nsdid + ndc
}

// Stores words as they are. Answers their sum, modulo 65,536.
fn carry(user: &[u16], out: &mut [u16]) -> u16
    requires { length user.now ≡ length out.old }
    ensures out_after { out.new ≡ user.now }
    ensures value { result ≡ sum user.now % 65536 }
{
    // One walk does both. The library's copy of a slice calls C's memmove, which the archive does not ask for.
    let mut total: u16 = 0;
    for i in 0..out.len() {
        let w = user[i];
        out[i] = w;
        total = total.wrapping_add(w);
    }
    total
}
