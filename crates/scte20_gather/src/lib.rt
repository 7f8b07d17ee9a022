// One look at the body of a caption unit: all of it at once, with no order of checks, and its constructs gathered as numbers.
//
// Normative references: docs/RULES.md, "Picture area" and "Order of checks"; document 001, 5.4 to 5.8.
#![tactic(auto)]

ghost use Rattle.std.specs.Prelude.{◌≡◌, ◌+◌, ◌*◌, ◌≤◌, ◌<◌, true, length, set};
ghost use Rattle.bits.specs.Peek.{peek_of};
ghost use Rattle.scte20_gather.specs.Inside.{Numbered, Held, Blank, Gathers};

use scte20::{CONSTRUCT_BITS, CONSTRUCTS, MAX_BYTES, SAMPLED_BITS};

// A place for each construct, as the number that its 26 bits write, and one more, which makes whole registers.
pub const PLACES: usize = 32;

// Gathers the constructs of a body with flag 1, and looks whether all of it is right. A yes vouches for the body; a no says nothing, so that no
// order of checks is kept here: what takes a loop comes first, since LLVM keeps a call behind many tests a call.
pub fn gathered(body: &[u8], found: &mut [u32; PLACES]) -> bool
    ensures { result ≡ true → Gathers body.now found.new }
{
    let len = body.len();
    if len < 3 {
        return false;
    }
    let n = usize::from(body[2] / 8);
    let from = CONSTRUCTS + CONSTRUCT_BITS * n;
    if len < (from + SAMPLED_BITS + 7) / 8 {
        return false;
    }
    gather(body, n, found);
    hold(n, found)
        && is_blank(body, from)
        && len <= MAX_BYTES
        && body[0] == 3
        && !kind::group_type(body[1])
        && body[1] % 2 == 1
}

// The numbers of n constructs. Four of them are 13 bytes, so that in each group the shifts are the same.
fn gather(body: &[u8], n: usize, found: &mut [u32; PLACES])
    requires { n ≤ 31 }
    ensures { Numbered body.now n found.new }
{
    for group in 0..n / 4 {
        let i = 4 * group;
        place(body, i, found);
        place(body, i + 1, found);
        place(body, i + 2, found);
        place(body, i + 3, found);
    }
    for i in n / 4 * 4..n {
        place(body, i, found);
    }
}

// The number of construct i, in its place.
fn place(body: &[u8], i: usize, found: &mut [u32; PLACES])
    requires { i < 32 }
    ensures { found.new ≡ set found.old i (peek_of body.now (21 + 26 * i) 26) }
{
    found[i] = bits::peek(body, CONSTRUCTS + CONSTRUCT_BITS * i, CONSTRUCT_BITS as u32);
}

// Whether n constructs are right: fields and lines rise, up to four of a field have priority 0, and the markers are 1. Field and line are one
// number, which begins above 31, since no record has field 0.
fn hold(n: usize, found: &[u32; PLACES]) -> bool
    requires { n ≤ 31 }
    ensures { result ≡ true → Held 31 0 n 0 found.now }
{
    let mut before: u32 = 31;
    let mut urgent: u32 = 0;
    for i in 0..n {
        let construct = found[i];
        let place = (construct >> 17) % 128;
        if place <= before {
            return false;
        }
        if construct % 2 == 0 {
            return false;
        }
        let kept = if place / 32 == before / 32 { urgent } else { 0 };
        urgent = kept + u32::from(construct < 16777216);
        if 4 < urgent {
            return false;
        }
        before = place;
    }
    true
}

// Whether all bits from bit `from` on are 0: the sampled video count, the alignment bits and the stuffing.
fn is_blank(body: &[u8], from: usize) -> bool
    requires { from < 8 * length body.now }
    ensures { result ≡ true → Blank body.now from }
{
    let k = from / 8;
    if body[k] << (from % 8) as u32 != 0 {
        return false;
    }
    // It looks at all bytes: a loop that does not leave early is done by wide registers.
    let mut any = 0;
    for i in k + 1..body.len() {
        any |= body[i];
    }
    any == 0
}
