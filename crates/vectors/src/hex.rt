// Decoding the bytes of a field.
ghost use Rattle.std.specs.Prelude.{◌≡◌, ◌≤◌, ◌<◌, length, IfSome, MatchOption};
ghost use Rattle.input.specs.Counts.{IsPrefixLen};
ghost use Rattle.vectors.specs.Digits.{digit_value};

// The first bytes of a field: one byte some times, and how many characters write it.
#[derive(Clone, Copy)]
struct Run {
    byte: u8,
    times: usize,
    len: usize,
}

// Decodes a field into the front of out, and answers how many bytes that are. None where it is unreadable, or out has no room for it.
pub fn decode(s: &[u8], out: &mut [u8]) -> Option<usize>
    ensures { IfSome result (λ n. IsPrefixLen n out.new) }
{
    match s {
        b"" => None,
        b"-" => Some(0),
        _ => decode_runs(s, out),
    }
}

fn decode_runs(s: &[u8], out: &mut [u8]) -> Option<usize>
    ensures { IfSome result (λ n. IsPrefixLen n out.new) }
{
    let mut rest = s;
    let mut len = 0;
    // A while: a run tells how many characters write it.
    while !rest.is_empty() {
        let run = first_run(rest)?;
        if out.len() - len < run.times {
            return None;
        }
        let end = len + run.times;
        out[len..end].fill(run.byte);
        len = end;
        rest = &rest[run.len..];
    }
    Some(len)
}

fn first_run(s: &[u8]) -> Option<Run>
    ensures { IfSome result (λ run. (0 < run.len) × (run.len ≤ length s.now)) }
{
    match s {
        [a, b, b'*', c, d, e, f, ..] => {
            let byte = pair(*a, *b)?;
            let times = u16::from_be_bytes([pair(*c, *d)?, pair(*e, *f)?]) as usize;
            Some(Run {
                byte,
                times,
                len: 7,
            })
        }
        [a, b, ..] => {
            let byte = pair(*a, *b)?;
            Some(Run {
                byte,
                times: 1,
                len: 2,
            })
        }
        _ => None,
    }
}

// The byte that two hex digits write.
fn pair(a: u8, b: u8) -> Option<u8> {
    Some(digit(a)? * 16 + digit(b)?)
}

// The value of an upper-case hex digit, which any other byte has not.
pub fn digit(b: u8) -> Option<u8>
    ensures { MatchOption result (digit_value b ≡ 16) (λ n. (n ≡ digit_value b) × (n < 16)) }
{
    match b {
        b'0'..=b'9' => Some(b - b'0'),
        b'A'..=b'F' => Some(b - b'A' + 10),
        _ => None,
    }
}
