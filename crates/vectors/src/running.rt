// Running a program's vectors.
ghost use Rattle.std.specs.Prelude.{◌≡◌, ◌<◌, length, IfSome};

use crate::hex::decode;
use crate::line::{field, fields, is_wrong, unmarked};
use crate::lines::{Kind, Lines, next};
use crate::tally::{Outcome, Tally, print_outcome, print_tally, print_wrong};
use std::io;
use std::io::{Stdin, Stdout};

// What runs a vector: it is given the input and what is expected.
pub type Step = fn(&[u8], &[u8]) -> Outcome;

// An operation of a program: what a line calls it, what its tally is called, and what runs its vectors.
#[derive(Clone, Copy)]
pub struct Operation {
    pub name: &'static str,
    pub label: &'static str,
    pub step: Step,
    pub tally: Tally,
    ghost callable: { Step.IsAlwaysCallable step },
}

impl Operation {
    // Before its first vector.
    pub fn new(name: &'static str, label: &'static str, step: Step) -> Operation
        requires { Step.IsAlwaysCallable step }
        ensures step { result.step ≡ step }
        ensures tally { result.tally ≡ record { ran = 0; differ = 0 } }
    {
        Operation {
            name,
            label,
            step,
            tally: Tally::default(),
        }
    }

    // What became of a vector; none where it is unreadable.
    fn outcome(self, vector: &[u8], input: &mut [u8], expected: &mut [u8]) -> Option<Outcome> {
        if fields(vector) != 4 {
            return None;
        }
        let given = decode(field(vector, 2), input)?;
        let wanted = decode(field(vector, 3), expected)?;
        Some((self.step)(&input[..given], &expected[..wanted]))
    }
}

// Where the operation of a name stands; none where no operation has it.
fn named(operations: &[Operation], name: &[u8]) -> Option<usize>
    ensures { IfSome result (λ i. i < length operations.now) }
{
    operations.iter().position(|o| o.name.as_bytes() == name)
}

// A line and its line feed must fit.
const LINE_ROOM: usize = 131072;

// Runs the vectors that come on standard input, and prints what differs and how many ran. The rooms are those that an
// input and an expectation must fit.
pub fn run(
    stdin: Stdin,
    out: Stdout,
    operations: &mut [Operation],
    input: &mut [u8],
    expected: &mut [u8],
) -> io::Result<()> {
    let mut buf = [0u8; LINE_ROOM];
    let mut lines = Lines::default();
    let mut unknown = Tally::default();
    let mut wrong = Tally::default();
    // A proved loop has to end, and nothing says that the input does. So the loop has a number of turns
    // that no run uses up.
    for _ in 0..u64::MAX {
        let Some(found) = next(stdin, &mut lines, &mut buf) else {
            break;
        };
        // The front of a line that is too long names no vector that could be run.
        if found.kind == Kind::Rest {
            continue;
        }
        let line = &buf[found.start..found.end];
        let vector = unmarked(line);
        let known = match found.kind {
            Kind::Whole => named(operations, field(vector, 0)),
            Kind::TooLong | Kind::Rest => None,
        };
        let outcome = known
            .and_then(|at| operations[at].outcome(vector, input, expected))
            .unwrap_or(Outcome::Unreadable);
        print_outcome(out, line, outcome)?;
        if is_wrong(line) {
            wrong = wrong.noticed(outcome);
        } else if let Some(at) = known {
            operations[at].tally = operations[at].tally.counted(outcome);
        } else {
            unknown = unknown.counted(outcome);
        }
    }
    for operation in operations.iter() {
        print_tally(out, operation.label.as_bytes(), operation.tally)?;
    }
    print_tally(out, b"not known", unknown)?;
    print_wrong(out, wrong)
}
