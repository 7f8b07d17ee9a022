// The lines of standard input, through a buffer that any number of them passes.
ghost use Rattle.std.specs.Prelude.{◌≡◌, ◌+◌, ◌≤◌, length, IfSome, IfNone};
ghost use Rattle.vectors.specs.Lines.{Standing};

use crate::line::find;
use std::io::Stdin;

#[derive(Clone, Copy, Debug, PartialEq, Eq)]
pub enum Kind {
    Whole,
    // The front of a line that the buffer cannot hold.
    TooLong,
    // What follows such a front, or a part of it.
    Rest,
}

// Where a line stands in the buffer.
#[derive(Clone, Copy, Debug, PartialEq, Eq)]
pub struct Line {
    pub kind: Kind,
    pub start: usize,
    pub end: usize,
}

// How much of the buffer is filled, and where in it what comes after the last line begins.
#[derive(Clone, Copy, Debug, Default, PartialEq, Eq)]
pub struct Lines {
    pub after: usize,
    pub filled: usize,
    // What comes next belongs to a line that is too long.
    pub is_cut: bool,
}

// Finds the next line; none where the input is over. Where the buffer has no whole one left, it moves what is left to the front and
// reads on.
pub fn next(stdin: Stdin, lines: &mut Lines, buf: &mut [u8]) -> Option<Line>
    ensures standing { IfSome result (λ line. Standing (length buf.new) line lines.new) }
    ensures over { IfNone result ((lines.new.after ≡ 0) × (lines.new.filled ≡ 0)) }
{
    let filled = lines.filled.min(buf.len());
    let from = lines.after.min(filled);
    let end = find(&buf[..filled], from, b'\n');
    if end < filled {
        return Some(ended(lines, from, end, filled));
    }
    refill(stdin, lines, buf, from, filled)
}

// A read that fails ends the input.
fn refill(stdin: Stdin, lines: &mut Lines, buf: &mut [u8], from: usize, to: usize) -> Option<Line>
    requires { (from ≤ to) × (to ≤ length buf.old) }
    ensures standing { IfSome result (λ line. Standing (length buf.new) line lines.new) }
    ensures over { IfNone result ((lines.new.after ≡ 0) × (lines.new.filled ≡ 0)) }
{
    buf.copy_within(from..to, 0);
    let have = to - from;
    let (got, _) = input::fill(stdin, &mut buf[have..]);
    let filled = have + got;
    let end = find(&buf[..filled], have, b'\n');
    if end < filled {
        return Some(ended(lines, 0, end, filled));
    }
    if filled == 0 {
        *lines = Lines::default();
        return None;
    }
    Some(unended(lines, filled, buf.len()))
}

// A line that a line feed ends.
fn ended(lines: &mut Lines, start: usize, end: usize, filled: usize) -> Line
    requires { (start ≤ end) × (end + 1 ≤ filled) }
    ensures { Standing filled result lines.new }
{
    let kind = if lines.is_cut {
        Kind::Rest
    } else {
        Kind::Whole
    };
    *lines = Lines {
        after: end + 1,
        filled,
        is_cut: false,
    };
    Line { kind, start, end }
}

// What fills the front of the buffer with no line feed: the last line where the input is over, else a
// line that is too long.
fn unended(lines: &mut Lines, filled: usize, room: usize) -> Line
    requires { filled ≤ room }
    ensures { Standing room result lines.new }
{
    let is_full = filled == room;
    let kind = if lines.is_cut {
        Kind::Rest
    } else if is_full {
        Kind::TooLong
    } else {
        Kind::Whole
    };
    *lines = Lines {
        after: filled,
        filled,
        is_cut: is_full,
    };
    Line {
        kind,
        start: 0,
        end: filled,
    }
}
