// Words in inputs and answers: each is two bytes, the high one first.
ghost use Rattle.std.specs.Prelude.{◌≤◌, length};

// Stores words from an index on, as far as there is room, and answers the index behind them.
pub(crate) fn put(words: &[u16], at: usize, out: &mut [u8]) -> usize
    requires { at ≤ length out.old }
    ensures { result ≤ length out.new }
{
    let mut end = at;
    for w in words {
        if out.len() - end < 2 {
            break;
        }
        vectors::put_word(out, end, *w);
        end += 2;
    }
    end
}
