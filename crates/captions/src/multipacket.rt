// The multipacket.
ghost use Rattle.multi.specs.Lent.{ReadsInto};
ghost use Rattle.multi.specs.Writing.{Writes};

use multi::{Answer, HEAD, MAX_INNERS};
use refusal::Written;

// Reads a multipacket, a head for each of its inner packets into a lent array.
#[unsafe(no_mangle)]
pub extern "C" fn captions_multi_read(
    words: &[u16],
    inners: &mut [[u16; HEAD]; MAX_INNERS],
) -> Answer
    ensures { ReadsInto words.now inners.old result inners.new }
{
    multi_reader::read_into(words, inners)
}

// Writes a multipacket at the front of out.
#[unsafe(no_mangle)]
pub extern "C" fn captions_multi_write(
    priority: u32,
    inners: &[[u16; HEAD]],
    words: &[u16],
    out: &mut [u16],
) -> Written
    ensures { Writes (record { priority = priority; heads = inners.now; words = words.now }) out.old result out.new }
{
    multi_writer::write_from(priority, inners, words, out)
}
