// The vectors of reading a data field, which is INPUT. EXPECTED is number (1 byte), place (4), data_identifier (1), n (4), then what the call stores in the lent
// array: 31 units of 45 bytes, zeros beyond n; after a refusal nothing.
use pes::{Head, LENT_UNITS};
use vectors::{Outcome, judged};

const HEAD: usize = 10;

pub(crate) fn outcome(input: &[u8], expected: &[u8]) -> Outcome {
    let mut before = [0u8; LENT_UNITS];
    vectors::pattern(&mut before);
    let mut units = before;
    let head = head_of(pes_reader::read_into(input, &mut units));
    judged(match expected.strip_prefix(&head) {
        Some(stored) => vectors::holds(&before, &units, stored),
        None => false,
    })
}

fn head_of(head: Head) -> [u8; HEAD] {
    let mut out = [0u8; HEAD];
    vectors::put_refusal(&mut out, head.refusal);
    vectors::put(&mut out, 5, head.data_identifier);
    vectors::put_number(&mut out, 6, head.n);
    out
}
