// The vectors of writing a data field, and of converting a packet into one. INPUT is room (4 bytes), then what the call is given. EXPECTED is number (1),
// place (4), len (4), then what the call writes. Behind that the output must hold what it held before.
use crate::packet_words::WORDS;
use crate::{ROOM, field_value, packet_value, packet_words};
use vectors::{Outcome, writes};

pub(crate) fn write(input: &[u8], expected: &[u8]) -> Outcome {
    if input.len() != field_value::END {
        return Outcome::Unreadable;
    }
    writes::<ROOM, _>(input, expected, |out| field_value::write(input, out))
}

pub(crate) fn convert(input: &[u8], expected: &[u8]) -> Outcome {
    let Some(bytes) = packet_words::bytes_of(input) else {
        return Outcome::Unreadable;
    };
    let n = bytes.len() / 2;
    let mut words = [0u16; WORDS];
    vectors::take_words(bytes, &mut words[..n]);
    writes::<ROOM, _>(
        input,
        expected,
        |out| pes_convert::convert(&words[..n], out),
    )
}

pub(crate) fn convert_value(input: &[u8], expected: &[u8]) -> Outcome {
    if input.len() != packet_value::END {
        return Outcome::Unreadable;
    }
    writes::<ROOM, _>(input, expected, |out| packet_value::convert(input, out))
}
