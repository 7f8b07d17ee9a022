// Counting vectors, and saying what became of them.
ghost use Rattle.std.specs.Prelude.{◌≡◌, not};
ghost use Rattle.vectors.specs.Tallies.{agreed, differed, judged_of, tallied_of};

use crate::line::{field, is_wrong, unmarked};
use std::io;
use std::io::Stdout;

// What became of a vector.
#[derive(Clone, Copy, Debug, PartialEq, Eq)]
pub enum Outcome {
    Agrees,
    Differs,
    Unreadable,
}

pub fn judged(agrees: bool) -> Outcome
    ensures { result ≡ judged_of agrees }
{
    if agrees {
        Outcome::Agrees
    } else {
        Outcome::Differs
    }
}

// How many vectors ran, and how many of them differed.
#[derive(Clone, Copy, Debug, Default, PartialEq, Eq)]
pub struct Tally {
    pub ran: u64,
    pub differ: u64,
}

impl Tally {
    // After one more vector. An unreadable one counts as one that differs.
    pub fn counted(self, outcome: Outcome) -> Tally
        ensures { result ≡ tallied_of self (not (agreed outcome)) }
    {
        self.tallied(outcome != Outcome::Agrees)
    }

    // The same of vectors that are wrong on purpose, with how many were noticed: those that were read and differ.
    pub fn noticed(self, outcome: Outcome) -> Tally
        ensures { result ≡ tallied_of self (differed outcome) }
    {
        self.tallied(outcome == Outcome::Differs)
    }

    // A count stops at the largest number.
    fn tallied(self, differs: bool) -> Tally
        ensures { result ≡ tallied_of self differs }
    {
        Tally {
            ran: self.ran.saturating_add(1),
            differ: self.differ.saturating_add(u64::from(differs)),
        }
    }
}

// The line of an operation.
pub fn print_tally(out: Stdout, operation: &[u8], t: Tally) -> io::Result<()> {
    print::text(out, operation)?;
    println!(out; ": {} ran, {} differ", t.ran, t.differ)
}

// The line of the vectors that are wrong on purpose.
pub fn print_wrong(out: Stdout, t: Tally) -> io::Result<()> {
    println!(out; "wrong on purpose: {} ran, {} noticed", t.ran, t.differ)
}

// Names a vector that did not do what it is to do. One that is wrong on purpose is to differ.
pub fn print_outcome(out: Stdout, line: &[u8], outcome: Outcome) -> io::Result<()> {
    match (outcome, is_wrong(line)) {
        (Outcome::Agrees, true) => print_name(out, b"not noticed: ", unmarked(line)),
        (Outcome::Differs, false) => print_name(out, b"differs: ", line),
        (Outcome::Unreadable, _) => print_unreadable(out, line),
        (Outcome::Agrees, false) | (Outcome::Differs, true) => Ok(()),
    }
}

// What a line holds need not be text.
fn print_name(out: Stdout, what: &[u8], line: &[u8]) -> io::Result<()> {
    print::text(out, what)?;
    print::text(out, field(line, 0))?;
    print::text(out, b" ")?;
    print::text(out, field(line, 1))?;
    print::text(out, b"\n")
}

// Shows the first bytes of a line that cannot be decoded.
fn print_unreadable(out: Stdout, line: &[u8]) -> io::Result<()> {
    print::text(out, b"unreadable: ")?;
    print::text(out, &line[..line.len().min(60)])?;
    print::text(out, b"\n")
}
