// A multipacket's value in an input, behind the room: priority (4 bytes), n (4), n heads of six words, then the bytes whose words are lent.
ghost use Rattle.std.specs.Prelude.{◌≤◌};

use crate::heads;
use multi::HEAD;
use refusal::Written;

// Where the heads begin.
const FIRST: usize = 12;

// The heads must fit: some values have more than any multipacket.
const HEADS: usize = 64;

// The lent words must fit.
const WORDS: usize = 4096;

// Whether an input has all its heads, and neither too many of them nor too many words.
pub(crate) fn is_readable(input: &[u8]) -> bool {
    let n = vectors::long(input, 8) as usize;
    if HEADS < n {
        return false;
    }
    let first = FIRST + heads::BYTES * n;
    if input.len() < first {
        return false;
    }
    input.len() - first <= WORDS
}

pub(crate) fn write(input: &[u8], out: &mut [u16]) -> Written {
    let priority = vectors::long(input, 4);
    // What is readable has no more than there is room for.
    let n = (vectors::long(input, 8) as usize).min(HEADS);
    let heads = heads_of(input, n);
    let first = FIRST + heads::BYTES * n;
    let k = input.len().saturating_sub(first).min(WORDS);
    let words = words_of(input, first, k);
    multi_writer::write_from(priority, &heads[..n], &words[..k], out)
}

fn heads_of(input: &[u8], n: usize) -> [[u16; HEAD]; HEADS]
    requires { n ≤ 64 }
{
    let mut heads = [[0u16; HEAD]; HEADS];
    for i in 0..n {
        heads[i] = heads::take(input, FIRST + heads::BYTES * i);
    }
    heads
}

// The words of the first k bytes from an index on, zeros after them.
fn words_of(input: &[u8], first: usize, k: usize) -> [u16; WORDS]
    requires first_bound { first ≤ 4096 }
    requires k_bound { k ≤ 4096 }
{
    let mut words = [0u16; WORDS];
    for i in 0..k {
        words[i] = anc::word(vectors::byte(input, first + i));
    }
    words
}
