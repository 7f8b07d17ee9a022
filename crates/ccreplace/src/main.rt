// Puts a caption unit into the picture area that comes on standard input, and writes the new area to standard output. The unit's value
// comes as words: reserved, flag and z, then each record as a line of `cclist` has it.
#![tactic(auto)]

ghost use Rattle.input.specs.Counts.{IsPrefixLen};

use scte20::CaptionUnit;
use std::env::Env;
use std::io;
use std::io::Stdout;
use units::MAX_BYTES;

// For 4,096 bytes of arguments, more than 31 records need, and the space before the first.
const WORDS_ROOM: usize = 4096 + 1;

fn main(rt: HostRuntime) -> io::Result<()> {
    let mut words = [0u8; WORDS_ROOM];
    let n = gathered(&rt, &mut words);
    let Some(unit) = notation::unit_of(&words[..n]) else {
        return rt.eprint(
            "usage: ccreplace RESERVED FLAG Z [PRIORITY FIELD LINE DATA DATA].. <AREA\n",
        );
    };
    // One byte more than an area may have, so that longer input is noticed.
    let mut area = [0u8; MAX_BYTES + 1];
    let len = match input::read(rt.stdin(), &mut area) {
        Ok(len) => len,
        Err(why) => return print::failed(rt.stderr(), "ccreplace: standard input", why),
    };
    match replace(rt.stdout(), &area[..len], unit) {
        Ok(()) => Ok(()),
        Err(why) => print::failed(rt.stderr(), "ccreplace: standard output", why),
    }
}

// Puts the arguments behind each other, with a space before each. Where they have no room, or one cannot be had, nothing is left, which tells
// no value.
fn gathered(rt: &impl Env, words: &mut [u8]) -> usize
    ensures { IsPrefixLen result words.new }
{
    let mut len = 0;
    for i in 1..usize::MAX {
        if !input::has_word(rt, i) {
            break;
        }
        if words.len() <= len {
            return 0;
        }
        words[len] = b' ';
        len += 1;
        match rt.arg(i, &mut words[len..]) {
            Ok(got) => len += got,
            Err(_) => return 0,
        }
    }
    len
}

// Answers whether all of the new area, or of the refusal, was written.
fn replace(out: Stdout, area: &[u8], unit: CaptionUnit) -> io::Result<()> {
    let mut new_area = [0u8; MAX_BYTES];
    let written = picture_writer::replace(area, unit, &mut new_area);
    let refusal = written.refusal;
    // By its number: an answer in the layout of C tells no more of a refusal.
    if refusal.number != 0 {
        return print::refused(out, refusal);
    }
    let len = written.len;
    print::text(out, &new_area[..len])
}
