// Reading GA94 caption content: the body of a GA94 unit, from left to right.
//
// Normative references: docs/RULES.md, "GA94" and "Order of checks"; document 003, Table 3.
#![tactic(auto)]

ghost use Rattle.std.specs.Prelude.{◌≡◌, true, [], ◌∷◌, ◌+◌, ◌*◌, ◌/◌, ◌%◌, ◌≤◌, ◌<◌, length, get_or};
ghost use Rattle.std.proofs.lemmas.List.Edits.{sets};
ghost use Rattle.lists.specs.Room.{filled};
ghost use Rattle.refusal.specs.Verdict.{Accepted};
ghost use Rattle.ga94.specs.Value.{blank};
ghost use Rattle.ga94.specs.Reading.{identifier_in, head_verdict, constructs_verdict, closing_verdict, content_verdict, records_at};
ghost use Rattle.ga94.specs.Lent.{records_bytes, ReadsInto};

use ga94::{CONSTRUCT_BYTES, CONSTRUCTS, LENT_RECORD, LENT_RECORDS, MAX_BYTES, Numbers};
use refusal::{Fixed, Item, Judged, Reason, Verdict};

// Where the flags and cc_count stand, and em_data.
const FLAGS: usize = 5;

const EM_DATA: usize = 6;

// Reads the body of a GA94 unit, its records into a lent array, which a refusal leaves as it is.
pub fn read_into(body: &[u8], records: &mut [u8; LENT_RECORDS]) -> Judged<Numbers>
    ensures { ReadsInto body.now records.old result records.new }
{
    judge(body)?;
    let flags = body[FLAGS];
    let em_data = body[EM_DATA];
    let n = (flags % 32) as usize;
    store(body, n, records);
    Ok(Numbers {
        process_em_data_flag: (flags / 128) as u32,
        process_cc_data_flag: (flags / 64 % 2) as u32,
        additional_data_flag: 0,
        em_data: em_data as u32,
        n,
        z: body.len() - (CONSTRUCTS + CONSTRUCT_BYTES * n + 1),
    })
}

// All checks of a body, for one who does not ask for its records.
#[inline(always)]
pub fn judge(body: &[u8]) -> Verdict
    ensures { result ≡ content_verdict body.now }
{
    if is_clean(body) {
        return Ok(());
    }
    first_wrong(body)
}

// Whether a body passes all checks. It keeps nothing of what a refusal tells; where it answers no, none may refuse.
fn is_clean(body: &[u8]) -> bool
    ensures { result ≡ true → content_verdict body.now ≡ Accepted }
{
    if !has_head(body) {
        return false;
    }
    let n = (body[FLAGS] % 32) as usize;
    let closing = CONSTRUCTS + CONSTRUCT_BYTES * n;
    if body.len() <= closing {
        return false;
    }
    if !are_marked(body, n) {
        return false;
    }
    is_closed(body, closing)
}

// Whether what stands before the constructs is all there and right.
fn has_head(body: &[u8]) -> bool
    ensures { result ≡ true → head_verdict body.now ≡ Accepted }
{
    if MAX_BYTES < body.len() {
        return false;
    }
    if body.len() < CONSTRUCTS {
        return false;
    }
    if !has_identifier(body) {
        return false;
    }
    if body[4] != 3 {
        return false;
    }
    body[FLAGS] / 32 % 2 == 0
}

// Whether each of n constructs begins with five ones. It looks at all of them, since a loop that does not leave early takes several at a time.
fn are_marked(body: &[u8], n: usize) -> bool
    requires n_bound { n ≤ 31 }
    requires n_in_bounds { 7 + 3 * n ≤ length body.now }
    ensures { result ≡ true → constructs_verdict n 7 body.now ≡ Accepted }
{
    let mut clean = true;
    for i in 0..n {
        if body[CONSTRUCTS + CONSTRUCT_BYTES * i] / 8 != 31 {
            clean = false;
        }
    }
    clean
}

// Whether eight ones stand at byte `at`, and only zero bytes behind them.
fn is_closed(body: &[u8], at: usize) -> bool
    requires body_len_bound { length body.now ≤ 16384 }
    requires at_in_bounds { at < length body.now }
    ensures { result ≡ true → closing_verdict at body.now ≡ Accepted }
{
    if body[at] != 0xFF {
        return false;
    }
    let stuffing = at + 1;
    if body.len() <= stuffing {
        return true;
    }
    body.len() <= bits::first_set(body, stuffing)
}

// All checks of a body, one after the other: the first that refuses.
fn first_wrong(body: &[u8]) -> Verdict
    ensures { result ≡ content_verdict body.now }
{
    judge_head(body)?;
    let n = (body[FLAGS] % 32) as usize;
    judge_constructs(body, n)?;
    judge_closing(body, CONSTRUCTS + CONSTRUCT_BYTES * n)
}

// What stands before the constructs.
fn judge_head(body: &[u8]) -> Verdict
    ensures { result ≡ head_verdict body.now }
{
    if MAX_BYTES < body.len() {
        return Err((Reason::TooLong, Item::Whole));
    }
    if body.len() < 4 {
        return Err((Reason::Ends, Item::Bit(0)));
    }
    if !has_identifier(body) {
        return Err((Reason::Unfixed(Fixed::Identifier), Item::Bit(0)));
    }
    if body.len() < 5 {
        return Err((Reason::Ends, Item::Bit(32)));
    }
    if body[4] != 3 {
        return Err((Reason::Unfixed(Fixed::Identifier), Item::Bit(32)));
    }
    if body.len() < 6 {
        return Err((Reason::Ends, Item::Bit(40)));
    }
    if body[FLAGS] / 32 % 2 != 0 {
        return Err((Reason::AdditionalData, Item::Bit(42)));
    }
    if body.len() < 7 {
        return Err((Reason::Ends, Item::Bit(48)));
    }
    Ok(())
}

// Whether ATSC_identifier stands at the front.
fn has_identifier(body: &[u8]) -> bool
    requires { 4 ≤ length body.now }
    ensures { result ≡ identifier_in body.now }
{
    if body[0] != 0x47 {
        return false;
    }
    if body[1] != 0x41 {
        return false;
    }
    if body[2] != 0x39 {
        return false;
    }
    body[3] == 0x34
}

// The n constructs: each is all there, and begins with five ones.
fn judge_constructs(body: &[u8], n: usize) -> Verdict
    requires { n ≤ 31 }
    ensures { result ≡ constructs_verdict n 7 body.now }
{
    for i in 0..n {
        let at = CONSTRUCTS + CONSTRUCT_BYTES * i;
        if body.len() < at + CONSTRUCT_BYTES {
            return Err((Reason::Ends, Item::Bit(8 * at)));
        }
        if body[at] / 8 != 31 {
            return Err((Reason::Unfixed(Fixed::Marker), Item::Bit(8 * at)));
        }
    }
    Ok(())
}

// The eight ones at byte `at`, and zero bytes from there up to the end.
fn judge_closing(body: &[u8], at: usize) -> Verdict
    requires body_len_bound { length body.now ≤ 16384 }
    requires at_in_bounds { at ≤ length body.now }
    ensures { result ≡ closing_verdict at body.now }
{
    if body.len() < at + 1 {
        return Err((Reason::Ends, Item::Bit(8 * at)));
    }
    if body[at] != 0xFF {
        return Err((Reason::Unfixed(Fixed::Marker), Item::Bit(8 * at)));
    }
    let wrong = bits::first_set(body, at + 1);
    if wrong < body.len() {
        let zeros = bits::leading(body[wrong]);
        return Err((
            Reason::Unfixed(Fixed::Stuffing),
            Item::Bit(8 * wrong + zeros as usize),
        ));
    }
    Ok(())
}

// Stores the records of n constructs that were judged, and zeros behind them. A byte follows the constructs, so that each can be taken with the
// byte behind it, as one number.
fn store(body: &[u8], n: usize, records: &mut [u8; LENT_RECORDS])
    requires n_bound { n ≤ 31 }
    requires n_in_bounds { 7 + 3 * n < length body.now }
    ensures { records.new ≡ records_bytes (filled (records_at n 7 body.now) 31 blank) }
{
    *records = [0; LENT_RECORDS];
    for i in 0..n {
        let construct = four_at(body, CONSTRUCTS + CONSTRUCT_BYTES * i);
        let lent = LENT_RECORD * i;
        records[lent..lent + LENT_RECORD].copy_from_slice(&record_of(construct).to_le_bytes());
    }
}

// The four bytes of a construct's record: cc_valid and cc_type, which are the low three bits of its first byte, then the data bytes as they are.
fn record_of(construct: u32) -> u32
    ensures { result ≡ construct / 4 % 2 + 256 * (construct % 4) + 65536 * (construct / 256 % 65536) }
{
    construct / 4 % 2 + 256 * (construct % 4) + 65536 * (construct / 256 % 65536)
}

// Four bytes as one number, the first of them its lowest. In a function of its own this becomes one load. It stands in ga94_writer too: a public one
// would take every index, and test it at each record.
fn four_at(s: &[u8], at: usize) -> u32
    requires { at + 4 ≤ length s.now }
    ensures { result ≡ get_or s.now at 0 + 256 * get_or s.now (at + 1) 0 + 65536 * (get_or s.now (at + 2) 0 + 256 * get_or s.now (at + 3) 0) }
{
    u32::from_le_bytes([s[at], s[at + 1], s[at + 2], s[at + 3]])
}
