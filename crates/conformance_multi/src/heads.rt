// Heads of inner packets in inputs and answers: each is six words.
ghost use Rattle.std.specs.Prelude.{◌<◌};

use multi::HEAD;

pub(crate) const BYTES: usize = 2 * HEAD;

// The head at an index. Missing words are zero.
pub(crate) fn take(bytes: &[u8], at: usize) -> [u16; HEAD]
    requires { at < 4096 }
{
    let mut head = [0u16; HEAD];
    for (i, w) in head.iter_mut().enumerate() {
        *w = vectors::word(bytes, at + 2 * i);
    }
    head
}

// Stores a head at an index. What lies beyond the end is left out.
pub(crate) fn put(head: [u16; HEAD], at: usize, out: &mut [u8])
    requires { at < 4096 }
{
    for (i, w) in head.iter().enumerate() {
        vectors::put_word(out, at + 2 * i, *w);
    }
}
