// The vectors of what `cclist` prints for an area, which is INPUT. EXPECTED is the text.
use vectors::{Outcome, judged};

pub(crate) fn outcome(input: &[u8], expected: &[u8]) -> Outcome {
    let text = listing::text_of(picture::read(input));
    judged(text.bytes.get(..text.len) == Some(expected))
}
