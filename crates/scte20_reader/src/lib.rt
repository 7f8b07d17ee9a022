// Reading SCTE 20 caption content: the body of a caption unit, from left to right.
//
// Normative references: docs/RULES.md, "Picture area" and "Order of checks"; document 001, 5.4 to 5.8.
#![tactic(auto)]

ghost use Rattle.std.specs.Prelude.{◌≡◌, ◌-◌, ◌*◌, ◌≤◌, ◌<◌, length, Ok};
ghost use Rattle.lists.specs.Room.{over};
ghost use Rattle.refusal.specs.Verdict.{Accepted};
ghost use Rattle.refusal.specs.Checks.{and_then};
ghost use Rattle.bits.specs.Bits.{bits_of};
ghost use Rattle.bits.specs.Table.{Reverses};
ghost use Rattle.scte20.specs.Reading.{head_verdict, flag_in, sampled_verdict, rest_verdict, content_verdict};
ghost use Rattle.scte20.specs.Lent.{records_bytes, ReadsInto};
ghost use Rattle.scte20.specs.Inside.{construct_of, Runs};
ghost use Rattle.scte20_gather.specs.Inside.{Small, records_of, Gathers};

use fields::DisplayField;
use refusal::{Fixed, Item, Judged, Reason, Verdict};
use scte20::{CONSTRUCT_BITS, CONSTRUCTS, LENT_RECORDS, MAX_BYTES, Numbers, Record, SAMPLED_BITS};
use scte20_gather::PLACES;

// user_data_type_code, reserved and vbi_data_flag take two bytes; then cc_count begins.
const COUNT: usize = 16;

// Reads the body of a caption unit, its records into a lent array, which a refusal leaves as it is.
pub fn read_into(body: &[u8], records: &mut [u8; LENT_RECORDS]) -> Judged<Numbers>
    ensures { ReadsInto body.now records.old result records.new }
{
    let mut found = [0; PLACES];
    if scte20_gather::gathered(body, &mut found) {
        return Ok(store(body, &found, records));
    }
    read_stepwise(body, records)
}

// The verdict alone, for one who puts another unit into the place.
pub fn judge(body: &[u8]) -> Verdict
    ensures { result ≡ content_verdict body.now }
{
    let mut found = [0; PLACES];
    if scte20_gather::gathered(body, &mut found) {
        return Ok(());
    }
    let mut records = [0; LENT_RECORDS];
    read_stepwise(body, &mut records)?;
    Ok(())
}

// Stores the records of constructs that were gathered, and zeros behind them.
fn store(body: &[u8], found: &[u32; PLACES], records: &mut [u8; LENT_RECORDS]) -> Numbers
    requires { Gathers body.now found.now }
    ensures { ReadsInto body.now records.old (Ok result) records.new }
{
    let count = (body[2] / 8) as usize;
    *records = [0; LENT_RECORDS];
    put_records(count, found, records);
    Numbers {
        reserved: body[1] / 2,
        vbi_data_flag: 1,
        n: count,
        z: body.len() - (CONSTRUCTS + CONSTRUCT_BITS * count + SAMPLED_BITS + 7) / 8,
    }
}

// The records of n constructs, one behind the other.
fn put_records(n: usize, found: &[u32; PLACES], records: &mut [u8; LENT_RECORDS])
    requires n_bound { n ≤ 31 }
    requires small { Small n found.now }
    ensures { records.new ≡ over (records_bytes (records_of n 0 found.now)) records.old }
{
    // Once for all constructs: wherever the table is asked for, its 256 bytes are laid on the stack.
    let table = bits::reversed_bytes();
    for i in 0..n {
        scte20::put_record(record_of(found[i], &table), i, records);
    }
}

// Reads a body from left to right, each item judged before the next.
fn read_stepwise(body: &[u8], records: &mut [u8; LENT_RECORDS]) -> Judged<Numbers>
    ensures { ReadsInto body.now records.old result records.new }
{
    judge_head(body)?;
    if body[1] % 2 == 0 {
        return read_bare(body, records);
    }
    read_flagged(body, records)
}

// What stands before the flag's decision.
fn judge_head(body: &[u8]) -> Verdict
    ensures { result ≡ head_verdict body.now }
{
    if MAX_BYTES < body.len() {
        return Err((Reason::TooLong, Item::Whole));
    }
    if body.is_empty() {
        return Err((Reason::Ends, Item::Bit(0)));
    }
    if body[0] != 3 {
        return Err((Reason::Unfixed(Fixed::Identifier), Item::Bit(0)));
    }
    // The reserved bits and the flag share a byte.
    if body.len() < 2 {
        return Err((Reason::Ends, Item::Bit(8)));
    }
    // A data group is no caption unit of an area.
    if kind::group_type(body[1]) {
        return Err((Reason::Unfixed(Fixed::Identifier), Item::Bit(8)));
    }
    Ok(())
}

// With flag 0 the content is two bytes.
fn read_bare(body: &[u8], records: &mut [u8; LENT_RECORDS]) -> Judged<Numbers>
    requires body_value { head_verdict body.now ≡ Accepted }
    requires body_value_2 { flag_in (bits_of body.now) ≡ 0 }
    ensures { ReadsInto body.now records.old result records.new }
{
    judge_rest(body, COUNT)?;
    *records = [0; LENT_RECORDS];
    Ok(Numbers {
        reserved: body[1] / 2,
        vbi_data_flag: 0,
        n: 0,
        z: body.len() - 2,
    })
}

// cc_count, the constructs, the sampled video count, alignment and stuffing.
fn read_flagged(body: &[u8], records: &mut [u8; LENT_RECORDS]) -> Judged<Numbers>
    requires body_value { head_verdict body.now ≡ Accepted }
    requires body_value_2 { flag_in (bits_of body.now) ≡ 1 }
    ensures { ReadsInto body.now records.old result records.new }
{
    if body.len() < 3 {
        return Err((Reason::Ends, Item::Bit(COUNT)));
    }
    let n = (body[2] / 8) as usize;
    let mut found = [0; LENT_RECORDS];
    read_constructs(body, n, &mut found)?;
    let end = CONSTRUCTS + CONSTRUCT_BITS * n + SAMPLED_BITS;
    judge_tail(body, end)?;
    *records = found;
    Ok(Numbers {
        reserved: body[1] / 2,
        vbi_data_flag: 1,
        n,
        z: body.len() - (end + 7) / 8,
    })
}

// The n constructs, each read and judged before the next. Where one is refused, what is in the records means nothing.
fn read_constructs(body: &[u8], n: usize, records: &mut [u8; LENT_RECORDS]) -> Verdict
    requires body_len_bound { length body.now ≤ 16384 }
    requires n_bound { n ≤ 31 }
    ensures { Runs body.now n records.old result records.new }
{
    // Once for all constructs: wherever the table is asked for, its 256 bytes are laid on the stack.
    let table = bits::reversed_bytes();
    let mut last = scte20_rules::none_yet();
    for i in 0..n {
        let at = CONSTRUCTS + CONSTRUCT_BITS * i;
        if body.len() < (at + CONSTRUCT_BITS + 7) / 8 {
            return Err((Reason::Ends, Item::Bit(at)));
        }
        let construct = bits::peek(body, at, CONSTRUCT_BITS as u32);
        let record = record_of(construct, &table);
        scte20_rules::judge_record(last, record, at as u32)?;
        if construct % 2 != 1 {
            return Err((Reason::Unfixed(Fixed::Marker), Item::Bit(at + 25)));
        }
        scte20::put_record(record, i, records);
        last = scte20_rules::after(last, record);
    }
    Ok(())
}

// The record of a construct (001, 5.8). The data bytes come least significant bit first.
fn record_of(construct: u32, table: &[u8; 256]) -> Record
    requires construct_bound { construct < 67108864 }
    requires reverses { Reverses table.now }
    ensures { result ≡ construct_of construct }
{
    let first = (construct >> 9) % 256;
    let second = (construct >> 1) % 256;
    Record {
        cc_priority: (construct >> 24) as u8,
        field_number: DisplayField(((construct >> 22) % 4) as u8),
        line_offset: ((construct >> 17) % 32) as u8,
        cc_data_1: table[first as usize],
        cc_data_2: table[second as usize],
    }
}

// The sampled video count, which ends before bit `end`, then what follows it.
fn judge_tail(body: &[u8], end: usize) -> Verdict
    requires body_len_bound { length body.now ≤ 16384 }
    requires le_end { 4 ≤ end }
    requires end_bound { end < 1048576 }
    ensures { result ≡ and_then (sampled_verdict (end - 4) (bits_of body.now)) (rest_verdict end (bits_of body.now)) }
{
    let at = end - SAMPLED_BITS;
    if body.len() < (end + 7) / 8 {
        return Err((Reason::Ends, Item::Bit(at)));
    }
    if bits::peek(body, at, SAMPLED_BITS as u32) != 0 {
        return Err((Reason::SampledVideo, Item::Bit(at)));
    }
    judge_rest(body, end)
}

// From bit `at` on, zero bits up to a whole byte and zero bytes up to the end.
// The bound on the length, for which two more functions ask, keeps bit numbers in a word: a struct around the slice would be no plainer.
fn judge_rest(body: &[u8], at: usize) -> Verdict
    requires body_len_bound { length body.now ≤ 16384 }
    requires at_bound { at ≤ 8 * length body.now }
    ensures { result ≡ rest_verdict at (bits_of body.now) }
{
    let unused = ((8 - at % 8) % 8) as u32;
    let alignment = bits::peek(body, at, unused);
    if alignment != 0 {
        let zeros = bits::leading((alignment << (8 - unused)) as u8);
        return Err((
            Reason::Unfixed(Fixed::Alignment),
            Item::Bit(at + zeros as usize),
        ));
    }
    let wrong = bits::first_set(body, (at + 7) / 8);
    if wrong < body.len() {
        let zeros = bits::leading(body[wrong]);
        return Err((
            Reason::Unfixed(Fixed::Stuffing),
            Item::Bit(8 * wrong + zeros as usize),
        ));
    }
    Ok(())
}
