// Writing SCTE 20 caption content: the body of a caption unit.
//
// Normative references: docs/RULES.md, "Picture area" and "Order of checks"; document 001, 5.4 to 5.8.
#![tactic(auto)]

ghost use Rattle.std.specs.Prelude.{◌≡◌, ◌++◌, ◌+◌, ◌-◌, ◌*◌, ◌/◌, ◌≤◌, ◌<◌, length, take, replicate};
ghost use Rattle.lists.specs.Room.{over_at};
ghost use Rattle.refusal.specs.Verdict.{Accepted};
ghost use Rattle.bits.specs.Bits.{bits, num, bytes_of};
ghost use Rattle.bits.specs.Table.{Reverses};
ghost use Rattle.scte20.specs.Value.{held, Ranged};
ghost use Rattle.scte20.specs.Layout.{construct_bits, layout, size_in};
ghost use Rattle.scte20.specs.Lent.{unit_in};
ghost use Rattle.scte20.specs.Writing.{value_verdict, Writes};
ghost use Rattle.scte20_writer.specs.Inside.{counted_size, Counts, pushed};

use refusal::Judged;
use scte20::{CONSTRUCT_BITS, CONSTRUCTS, LENT_RECORDS, MAX_BYTES, Numbers, Record, SAMPLED_BITS};

// Writes the body of the unit that numbers and a lent array tell, into out from index `before` on. Judged is the whole result,
// which has `before` bytes in front of the body and `after` bytes behind it. Answers how many bytes the body has.
pub fn write_from(
    v: Numbers,
    records: &[u8; LENT_RECORDS],
    before: usize,
    after: usize,
    out: &mut [u8],
) -> Judged<usize>
    ensures { Writes (unit_in v records.now) before after out.old result out.new }
{
    if !scte20_value::is_value(v, records) {
        scte20_value::judge_value(v, records)?;
    }
    let len = size(v);
    refusal::judge_fit(MAX_BYTES, before, len, after, out.len())?;
    put(v, records, &mut out[before..before + len]);
    Ok(len)
}

// How many bytes the body of a value has.
fn size(v: Numbers) -> usize
    requires n_bound { v.n ≤ 31 }
    requires z_bound { v.z ≤ 16384 }
    ensures { result ≡ size_in v.vbi_data_flag v.n + v.z }
{
    if v.vbi_data_flag == 0 {
        return 2 + v.z;
    }
    (CONSTRUCTS + CONSTRUCT_BITS * v.n + SAMPLED_BITS + 7) / 8 + v.z
}

// Stores the body of a value that was judged, in a part that it fills.
fn put(v: Numbers, records: &[u8; LENT_RECORDS], out: &mut [u8])
    requires records_value { value_verdict (unit_in v records.now) ≡ Accepted }
    requires out_len { length out.old ≡ length (layout (held (unit_in v records.now))) }
    ensures { out.new ≡ layout (held (unit_in v records.now)) }
{
    out[0] = 3;
    out[1] = v.reserved * 2 + v.vbi_data_flag;
    // What follows is zeros: the sampled video count, the alignment bits, the stuffing.
    if v.vbi_data_flag == 0 {
        out[2..].fill(0);
        return;
    }
    let end = put_constructs(v, records, out);
    out[end..].fill(0);
}

// cc_count and the constructs, behind the first two bytes. Answers the first index behind them. A construct is stored as a whole word, with zeros
// behind it.
fn put_constructs(v: Numbers, records: &[u8; LENT_RECORDS], out: &mut [u8]) -> usize
    requires records_value { value_verdict (unit_in v records.now) ≡ Accepted }
    requires n_in_bounds { 2 + counted_size v.n ≤ length out.old }
    ensures { Counts (held (unit_in v records.now)).records out.old result out.new }
{
    // Once for all constructs: wherever the table is asked for, its 256 bytes are laid on the stack.
    let table = bits::reversed_bytes();
    let mut last = v.n as u32;
    for i in 0..v.n {
        let construct = construct_of(scte20::record_in(records, i), &table);
        push(last, construct, i, out);
        last = construct;
    }
    let bit = 5 + CONSTRUCT_BITS * v.n;
    let at = 2 + bit / 8;
    out[at] = ((last << (8 - bit % 8) as u32) % 256) as u8;
    at + 1
}

// The construct of a record, as one number of 26 bits (001, 5.8). The data bytes go least significant bit first, and the marker
// is 1.
fn construct_of(r: Record, table: &[u8; 256]) -> u32
    requires ranged { Ranged r }
    requires reverses { Reverses table.now }
    ensures { result ≡ num (construct_bits r) }
{
    let first = table[r.cc_data_1 as usize] as u32;
    let second = table[r.cc_data_2 as usize] as u32;
    let place = (r.cc_priority as u32 * 4 + r.field_number.0 as u32) * 32 + r.line_offset as u32;
    ((place * 256 + first) * 256 + second) * 2 + 1
}

// Stores the construct of index i, and before it those last bits of the number in front that fill no byte.
fn push(last: u32, construct: u32, i: usize, out: &mut [u8])
    requires last_bound { last < 67108864 }
    requires construct_bound { construct < 67108864 }
    requires i_bound { i < 31 }
    requires i_in_bounds { 2 + (5 + 26 * i) / 8 + 4 ≤ length out.old }
    ensures { out.new ≡ over_at (2 + (5 + 26 * i) / 8) (bytes_of 4 (pushed (5 + 26 * i) last construct)) out.old }
{
    let bit = 5 + CONSTRUCT_BITS * i;
    let both = last as u64 * 67108864 + construct as u64;
    let word = ((both << 8) >> (bit % 8 + 2) as u32) % 4294967296;
    let at = 2 + bit / 8;
    out[at..at + 4].copy_from_slice(&(word as u32).to_be_bytes());
}
