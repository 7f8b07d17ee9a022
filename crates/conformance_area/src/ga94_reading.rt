// The vectors of reading an area for GA94, which is INPUT. EXPECTED is number (1 byte), place (4), 1 where a GA94 unit stands (1), process_em_data_flag,
// process_cc_data_flag, additional_data_flag, em_data, n and z (4 each), then the lent array as the call leaves it: 31 records of 4 bytes, zeros beyond n;
// after a refusal what it held before.
use ga94::{LENT_RECORDS, Numbers};
use picture::Ga94Head;
use vectors::{Outcome, judged};

const HEAD: usize = 30;

pub(crate) fn outcome(input: &[u8], expected: &[u8]) -> Outcome {
    let mut records = [0u8; LENT_RECORDS];
    vectors::pattern(&mut records);
    let head = head_of(picture::ga94_read_into(input, &mut records));
    judged(expected.strip_prefix(&head) == Some(records.as_slice()))
}

fn head_of(head: Ga94Head) -> [u8; HEAD] {
    let mut out = [0u8; HEAD];
    vectors::put_refusal(&mut out, head.refusal);
    vectors::put(&mut out, 5, head.present as u8);
    put_numbers(head.numbers, &mut out);
    out
}

fn put_numbers(numbers: Numbers, out: &mut [u8]) {
    vectors::put_number(out, 6, numbers.process_em_data_flag as usize);
    vectors::put_number(out, 10, numbers.process_cc_data_flag as usize);
    vectors::put_number(out, 14, numbers.additional_data_flag as usize);
    vectors::put_number(out, 18, numbers.em_data as usize);
    vectors::put_number(out, 22, numbers.n);
    vectors::put_number(out, 26, numbers.z);
}
