// Standard input, for a program that lists or changes what it reads.
//
// A read that fails is not the end of the input: what came before it is no whole payload, packet or area.
#![tactic(auto)]

ghost use Rattle.std.specs.Prelude.{◌<◌, IfOk};
ghost use Rattle.input.specs.Counts.{IsPrefixLen};

use std::env::{Env, FillError};
use std::io;
use std::io::{Read, Stdin};

// Where counting stops, so that it ends whatever the input is: 4 GiB.
const MOST: usize = 4294967296;

// How many bytes are read and dropped at a time.
const STEP: usize = 4096;

// Reads standard input into a buffer, up to the end of either, and answers how many of its bytes that fills.
pub fn read(stdin: Stdin, buf: &mut [u8]) -> io::Result<usize>
    ensures { IfOk result (λ n. IsPrefixLen n buf.new) }
{
    let (len, end) = fill(stdin, buf);
    end?;
    Ok(len)
}

// Reads standard input into a buffer, up to the end of either or a read that fails, and answers how many of its bytes that fills, and
// whether none failed.
pub fn fill(mut stdin: Stdin, buf: &mut [u8]) -> (usize, io::Result<()>)
    ensures { IsPrefixLen result.0 buf.new }
{
    let mut len = 0;
    // A while: a read tells how many bytes it brought.
    while len < buf.len() {
        match stdin.read(&mut buf[len..]) {
            Ok(0) => break,
            Ok(more) => len += more,
            Err(why) => return (len, Err(why)),
        }
    }
    (len, Ok(()))
}

// Reads standard input to its end, or for 4 GiB, and counts its bytes: how many a program that has filled its buffer leaves.
pub fn count_rest(stdin: Stdin) -> io::Result<usize>
    ensures { IfOk result (λ n. n < 4294971392) }
{
    let mut dropped = [0u8; STEP];
    let mut len = 0;
    // A while, for the same reason.
    while len < MOST {
        match read(stdin, &mut dropped)? {
            0 => break,
            more => len += more,
        }
    }
    Ok(len)
}

// Whether the program was given the word of an index, be it empty. Its name is word 0.
pub fn has_word(rt: &impl Env, i: usize) -> bool {
    !matches!(rt.arg(i, &mut []), Err(FillError::NotPresent))
}
