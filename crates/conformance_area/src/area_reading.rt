// The vectors of reading an area, which is INPUT. EXPECTED is number (1 byte), place (4), 1 where a caption unit stands (1), reserved (1), flag (1), n (4),
// z (4), then all 31 records of 5 bytes, zeros beyond n, so that unused room is compared too.
ghost use Rattle.std.specs.Prelude.{◌<◌};

use scte20::{MAX_RECORDS, Record};
use vectors::{Outcome, judged};

const HEAD: usize = 16;

const ANSWER: usize = HEAD + 5 * MAX_RECORDS;

pub(crate) fn outcome(input: &[u8], expected: &[u8]) -> Outcome {
    judged(answer_of(input).as_slice() == expected)
}

fn answer_of(input: &[u8]) -> [u8; ANSWER] {
    let answer = picture::read(input);
    let unit = answer.unit;
    let mut out = [0u8; ANSWER];
    vectors::put_refusal(&mut out, answer.refusal);
    vectors::put(&mut out, 5, answer.present as u8);
    vectors::put(&mut out, 6, unit.reserved);
    vectors::put(&mut out, 7, unit.vbi_data_flag);
    vectors::put_number(&mut out, 8, unit.n);
    vectors::put_number(&mut out, 12, unit.z);
    for (i, record) in unit.records.iter().enumerate() {
        put_record(*record, i, &mut out);
    }
    out
}

fn put_record(record: Record, i: usize, out: &mut [u8; ANSWER])
    requires { i < 31 }
{
    let at = HEAD + 5 * i;
    out[at..at + 5].copy_from_slice(&[
        record.cc_priority,
        record.field_number.0,
        record.line_offset,
        record.cc_data_1,
        record.cc_data_2,
    ]);
}
