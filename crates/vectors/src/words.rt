// Words of two bytes, the most significant first.
ghost use Rattle.std.specs.Prelude.{◌≡◌, ℕ, ◌*◌, ◌<◌, length, get_or};
ghost use Rattle.vectors.specs.Numbers.{word_in, long_in, word_put};

use crate::bytes::{byte, put};

// The word that the two bytes at an index write. Missing ones count as 0.
pub fn word(s: &[u8], at: usize) -> u16
    ensures { result ≡ word_in s.now at }
{
    if s.len() <= at {
        return 0;
    }
    u16::from_be_bytes([byte(s, at), byte(s, at + 1)])
}

// The number that the four bytes from an index on write. Missing ones count as 0.
pub fn long(s: &[u8], at: usize) -> u32
    ensures { result ≡ long_in s.now at }
{
    if s.len() <= at {
        return 0;
    }
    u32::from(word(s, at)) * 65536 + u32::from(word(s, at + 2))
}

// Fills an output with the words that bytes write. Missing ones are 0.
pub fn take_words(s: &[u8], out: &mut [u16])
    ensures { (k : ℕ) → k < length out.old → get_or out.new k 0 ≡ word_in s.now (2 * k) }
{
    for (i, w) in out.iter_mut().enumerate() {
        *w = word(s, 2 * i);
    }
}

// Stores the two bytes that write a word. What lies beyond the end is left out.
pub fn put_word(out: &mut [u8], at: usize, w: u16)
    ensures { out.new ≡ word_put out.old at w }
{
    if out.len() <= at {
        return;
    }
    let [high, low] = w.to_be_bytes();
    put(out, at, high);
    put(out, at + 1, low);
}
