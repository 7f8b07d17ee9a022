// What the programs print: to standard output, and to standard error where a read or a write failed.
//
// Each function answers whether all of it was written, and stops at the first write that was not.
#![tactic(auto)]

ghost use Rattle.std.specs.Prelude.{◌≡◌, ◌%◌};
ghost use Rattle.print.specs.Digits.{digit_of};

use refusal::{Item, Reason, Refusal};
use std::io::{Cursor, Stderr, Stdout, Write};
use std::{io, str};

pub fn text(out: Stdout, bytes: &[u8]) -> io::Result<()> {
    Print::write_all(&out, bytes)
}

pub fn decimal(out: Stdout, n: u64) -> io::Result<()> {
    out.print(n)
}

// A byte as two upper-case hex digits.
pub fn hex(out: Stdout, b: u8) -> io::Result<()> {
    text(out, &[digit(b / 16), digit(b)])
}

// A refusal and a line feed.
pub fn refused(out: Stdout, r: Refusal) -> io::Result<()> {
    println!(out; "{r}")
}

// The refusal of input that is longer than its carriage allows: the place is its length.
pub fn too_long(out: Stdout, length: usize) -> io::Result<()> {
    refused(
        out,
        Refusal::from(Err((Reason::TooLong, Item::Length(length)))),
    )
}

// The character of the hex digit that d is, modulo 16. No format: no clause says which digits one writes, and it takes longer.
fn digit(d: u8) -> u8
    ensures { result ≡ digit_of (d % 16) }
{
    let n = d % 16;
    if n < 10 { b'0' + n } else { b'A' + (n - 10) }
}

// What failed, to standard error: its name, a colon and why, as the system says it.
pub fn failed(err: Stderr, what: &str, why: io::Error) -> io::Result<()> {
    let mut words = [0u8; 512];
    let mut to = Cursor::new(&mut words[..]);
    write!(to, "{why}")?;
    let len = (to.position() as usize).min(words.len());
    let said = str::from_utf8(&words[..len]).map_or("", without_number);
    println!(err; "{what}: {said}")
}

// The system's words without the number that the library puts behind them.
fn without_number(said: &str) -> &str {
    said.split_once(" (os error ")
        .map_or(said, |(words, _)| words)
}
