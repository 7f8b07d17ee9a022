// Writing an RDD 8 (OP-47) subtitling packet.
//
// Normative references: docs/RULES.md, "Subtitling packet" and "Order of checks"; document 002 (RDD 8), clause 4; SMPTE 291M.
#![tactic(auto)]

ghost use Rattle.std.specs.Prelude.{◌≡◌, ◌+◌, ◌*◌, ◌%◌, ◌<◌, ◌≤◌, [], ◌∷◌, map, length, take};
ghost use Rattle.lists.specs.Each.{Each};
ghost use Rattle.lists.specs.Part.{part};
ghost use Rattle.lists.specs.Room.{over};
ghost use Rattle.lists.specs.Sum.{sum};
ghost use Rattle.anc.specs.Words.{word_of, byte_of};
ghost use Rattle.refusal.specs.Verdict.{Accepted};
ghost use Rattle.sdp.specs.Value.{descriptor as Value·descriptor, LegalSlot, Typed, held, beside};
ghost use Rattle.sdp.specs.Layout.{count as Layout·count, structures, footer};
ghost use Rattle.subtitling.specs.Layout.{layout};
ghost use Rattle.subtitling.specs.Writing.{value_verdict, Writes};
ghost use Rattle.subtitling.specs.Inside.{CountVouches, CountJudged, sealed};

use refusal::{Excess, Item, Judged, Reason, Refusal, Verdict, Written};
use sdp::{Packet, ROW_BYTES, SLOTS, STRUCTURE_WORDS};
use subtitling::MIN_WORDS;

// Writes a packet at the front of out.
pub fn write(p: Packet, rows: [[u8; ROW_BYTES]; SLOTS], out: &mut [u16]) -> Written
    ensures { Writes p rows out.old result out.new }
{
    write_from(p, &rows, out)
}

// The same with the rows in a lent array.
pub fn write_from(p: Packet, rows: &[[u8; ROW_BYTES]; SLOTS], out: &mut [u16]) -> Written
    ensures { Writes p rows.now out.old result out.new }
{
    by_types(p, *rows);
    match count_judged(p, rows, out.len()) {
        Ok(k) => {
            put(p, rows, k, out);
            Written {
                refusal: Refusal::from(Ok(())),
                len: MIN_WORDS + STRUCTURE_WORDS * k,
            }
        }
        Err(why) => Written::from(Err(why)),
    }
}

// Judges a value that would be written to an output of so many words.
pub fn judge(p: Packet, rows: &[[u8; ROW_BYTES]; SLOTS], room: usize) -> Verdict
    ensures typed { Typed p rows.now }
    ensures value { result ≡ value_verdict (held p rows.now) room }
{
    by_types(p, *rows);
    judge_value(p, rows, room)
}

// What the types say. It does nothing: of a lent array the check tells the length, and of what stands in it only where it is read.
fn by_types(p: Packet, rows: [[u8; ROW_BYTES]; SLOTS])
    ensures { Typed p rows }
{}

// How many structures a value brings, or why it cannot be written.
fn count_judged(p: Packet, rows: &[[u8; ROW_BYTES]; SLOTS], room: usize) -> Judged<usize>
    requires { Typed p rows.now }
    ensures { CountJudged p rows.now room result }
{
    if let Some(k) = holds(p, rows, room) {
        return Ok(k);
    }
    judge_value(p, rows, room)?;
    Ok(sdp::count(p))
}

// How many structures a value brings that can be written. Where it answers none, all may be well.
fn holds(p: Packet, rows: &[[u8; ROW_BYTES]; SLOTS], room: usize) -> Option<usize>
    requires { Typed p rows.now }
    ensures { CountVouches p rows.now room result }
{
    if 65535 < p.counter {
        return None;
    }
    let mut k = 0;
    for i in 0..SLOTS {
        let slot = p.slots[i];
        if !sdp::slot_holds(slot, &rows[i]) {
            return None;
        }
        k += usize::from(slot.full);
    }
    if room < MIN_WORDS + STRUCTURE_WORDS * k {
        return None;
    }
    Some(k)
}

// RULES, "Order of checks": 15 of the counter; 15 and 7 slot by slot; then 1, which five structures cannot meet, then 14.
#[tactic(auto, using(crate::proofs::Stored::judging))]
fn judge_value(p: Packet, rows: &[[u8; ROW_BYTES]; SLOTS], room: usize) -> Verdict
    requires { Typed p rows.now }
    ensures { result ≡ value_verdict (held p rows.now) room }
{
    if 65535 < p.counter {
        return Err((Reason::Unholdable(Excess::Counter), Item::Whole));
    }
    for i in 0..SLOTS {
        sdp::judge_slot(p.slots[i], &rows[i])?;
    }
    if room < MIN_WORDS + STRUCTURE_WORDS * sdp::count(p) {
        return Err((Reason::NoRoom, Item::Whole));
    }
    Ok(())
}

// Stores the layout of a value that was judged, with k structures: 10 words up to the descriptors, these 5, the structures, 3 of the footer, and
// the two checksums. Each piece answers its sum.
fn put(p: Packet, rows: &[[u8; ROW_BYTES]; SLOTS], k: usize, out: &mut [u16])
    requires typed { Typed p rows.now }
    requires out_value { value_verdict (held p rows.now) (length out.old) ≡ Accepted }
    requires k_value { k ≡ Layout·count (map Value·descriptor p.slots) }
    ensures { out.new ≡ over (layout (held p rows.now)) out.old }
{
    let count = put_header((13 + STRUCTURE_WORDS * k) as u8, out);
    let descriptors = put_descriptors(p, &mut out[10..]);
    let structures = put_structures(p, rows, &mut out[15..]);
    let footer = put_footer(p.counter, &mut out[15 + STRUCTURE_WORDS * k..]);
    let user = descriptors
        .wrapping_add(structures)
        .wrapping_add(0x151 + 0x115 + count + 0x102 + footer);
    put_sums(18 + STRUCTURE_WORDS * k, 0x143 + 0x102 + count, user, out);
}

// The flag, DID, SDID, DC, and the user bytes 51, 15, LENGTH, 02. Answers DC, which LENGTH repeats.
fn put_header(dc: u8, out: &mut [u16]) -> u16
    requires { 10 ≤ length out.old }
    ensures value { result ≡ word_of dc }
    ensures out_after { out.new ≡ over (0x000 ∷ 0x3FF ∷ 0x3FF ∷ map word_of (0x43 ∷ 0x02 ∷ dc ∷ 0x51 ∷ 0x15 ∷ dc ∷ 0x02 ∷ [])) out.old }
{
    let count = anc::word(dc);
    out[0] = 0x000;
    out[1] = 0x3FF;
    out[2] = 0x3FF;
    out[3] = 0x143;
    out[4] = 0x102;
    out[5] = count;
    out[6] = 0x151;
    out[7] = 0x115;
    out[8] = count;
    out[9] = 0x102;
    count
}

fn put_descriptors(p: Packet, out: &mut [u16]) -> u16
    requires { 5 ≤ length out.old }
    ensures value { result ≡ sum (map word_of (map byte_of (map Value·descriptor p.slots))) % 65536 }
    ensures out_after { out.new ≡ over (map word_of (map byte_of (map Value·descriptor p.slots))) out.old }
{
    let mut total: u16 = 0;
    for i in 0..SLOTS {
        let word = anc::word((sdp::descriptor(p.slots[i]) % 256) as u8);
        out[i] = word;
        total = total.wrapping_add(word);
    }
    total
}

// One structure for each full slot, one behind the other. In a legal value these are the slots whose descriptor is not 0.
fn put_structures(p: Packet, rows: &[[u8; ROW_BYTES]; SLOTS], out: &mut [u16]) -> u16
    requires typed { Typed p rows.now }
    requires each { Each LegalSlot (beside p.slots rows.now) }
    requires slots_in_bounds { 45 * Layout·count (map Value·descriptor p.slots) ≤ length out.old }
    ensures value { result ≡ sum (map word_of (structures (beside p.slots rows.now))) % 65536 }
    ensures out_after { out.new ≡ over (map word_of (structures (beside p.slots rows.now))) out.old }
{
    let mut total: u16 = 0;
    let mut at = 0;
    for i in 0..SLOTS {
        if p.slots[i].full != 0 {
            let words = put_structure(&rows[i], &mut out[at..]);
            total = total.wrapping_add(words);
            at += STRUCTURE_WORDS;
        }
    }
    total
}

fn put_structure(row: &[u8; ROW_BYTES], out: &mut [u16]) -> u16
    requires { 45 ≤ length out.old }
    ensures value { result ≡ sum (map word_of (0x55 ∷ 0x55 ∷ 0x27 ∷ row.now)) % 65536 }
    ensures out_after { out.new ≡ over (map word_of (0x55 ∷ 0x55 ∷ 0x27 ∷ row.now)) out.old }
{
    out[0] = 0x255;
    out[1] = 0x255;
    out[2] = 0x227;
    let mut total: u16 = 0x255 + 0x255 + 0x227;
    for j in 0..ROW_BYTES {
        let word = anc::word(row[j]);
        out[3 + j] = word;
        total = total.wrapping_add(word);
    }
    total
}

// 74 and the counter.
fn put_footer(counter: u32, out: &mut [u16]) -> u16
    requires counter_bound { counter < 65536 }
    requires in_bounds { 3 ≤ length out.old }
    ensures value { result ≡ sum (map word_of (footer counter)) }
    ensures out_after { out.new ≡ over (map word_of (footer counter)) out.old }
{
    let high = anc::word((counter / 256) as u8);
    let low = anc::word((counter % 256) as u8);
    out[0] = 0x274;
    out[1] = high;
    out[2] = low;
    0x274 + high + low
}

// The SDP checksum at index n, behind what was stored before it, and CS. header is the sum of DID, SDID and DC, user that of the user words.
fn put_sums(n: usize, header: u16, user: u16, out: &mut [u16])
    requires le_n { (6 ≤ n) × (n + 2 ≤ length out.old) }
    requires header_value { header ≡ sum (part 3 6 out.old) % 65536 }
    requires user_value { user ≡ sum (part 6 n out.old) % 65536 }
    ensures { out.new ≡ over (sealed (take n out.old)) out.old }
{
    let check = anc::word(((256 - user % 256) % 256) as u8);
    out[n] = check;
    out[n + 1] = anc::cs(header.wrapping_add(user).wrapping_add(check));
}
