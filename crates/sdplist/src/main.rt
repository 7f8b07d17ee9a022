// Lists the slots of the subtitling packet that comes on standard input, each word as two bytes, the high
// one first.
#![tactic(auto)]

ghost use Rattle.std.specs.Prelude.{◌≤◌, ◌<◌, length};

use refusal::{Item, Reason, Refusal, Verdict};
use sdp::{Packet, ROW_BYTES, SLOTS, Slot};
use std::io;
use std::io::Stdout;
use subtitling::MAX_WORDS;

// One word more than a packet may have, so that longer input is noticed.
const ROOM: usize = MAX_WORDS + 1;

fn main(rt: HostRuntime) -> io::Result<()> {
    if input::has_word(&rt, 1) {
        return rt.eprint("usage: sdplist <PACKET\n");
    }
    let mut bytes = [0u8; 2 * ROOM];
    let n = match input::read(rt.stdin(), &mut bytes) {
        Ok(n) => n,
        Err(why) => return print::failed(rt.stderr(), "sdplist: standard input", why),
    };
    let written = if n == 2 * ROOM {
        let rest = match input::count_rest(rt.stdin()) {
            Ok(rest) => rest,
            Err(why) => return print::failed(rt.stderr(), "sdplist: standard input", why),
        };
        print::too_long(rt.stdout(), (n + rest) / 2)
    } else {
        list_bytes(rt.stdout(), &bytes[..n])
    };
    match written {
        Ok(()) => Ok(()),
        Err(why) => print::failed(rt.stderr(), "sdplist: standard output", why),
    }
}

// Stops at the first write that fails, as the other functions that list do.
fn list_bytes(out: Stdout, input: &[u8]) -> io::Result<()>
    requires { length input.now ≤ 492 }
{
    let words = words_of(input);
    let count = input.len() / 2;
    if input.len() % 2 == 0 {
        return list(out, &words[..count]);
    }
    refuse_half(out, count)
}

// The words that the bytes write, zeros after them.
fn words_of(input: &[u8]) -> [u16; ROOM]
    requires { length input.now ≤ 492 }
{
    let mut words = [0u16; ROOM];
    for (word, pair) in words.iter_mut().zip(input.chunks_exact(2)) {
        *word = u16::from_be_bytes([pair[0], pair[1]]);
    }
    words
}

// Half a word after the last whole one: the input ends before the next byte.
fn refuse_half(out: Stdout, count: usize) -> io::Result<()> {
    let verdict = Err((Reason::Ends, Item::Length(count)));
    print::refused(out, Refusal::from(verdict))
}

fn list(out: Stdout, words: &[u16]) -> io::Result<()> {
    let answer = subtitling_reader::read(words);
    let refusal = answer.refusal;
    // By its number: an answer in the layout of C tells no more of a refusal.
    if refusal.number != 0 {
        return print::refused(out, refusal);
    }
    let packet = answer.packet;
    print::text(out, b"counter ")?;
    print::decimal(out, u64::from(packet.counter))?;
    print::text(out, b"\nslot full line reserved field data\n")?;
    list_slots(out, packet, &subtitling_reader::read_rows(words))
}

fn list_slots(out: Stdout, packet: Packet, rows: &[[u8; ROW_BYTES]; SLOTS]) -> io::Result<()> {
    for i in 0..SLOTS {
        print::decimal(out, i as u64)?;
        list_slot(out, packet.slots[i], &rows[i])?;
    }
    Ok(())
}

// An empty slot has no data to list.
fn list_slot(out: Stdout, slot: Slot, row: &[u8; ROW_BYTES]) -> io::Result<()> {
    spaced(out, slot.full)?;
    spaced(out, slot.line)?;
    spaced(out, slot.reserved)?;
    spaced(out, slot.field.0)?;
    if slot.full != 0 {
        list_row(out, row)?;
    }
    print::text(out, b"\n")
}

fn list_row(out: Stdout, row: &[u8; ROW_BYTES]) -> io::Result<()> {
    for b in row {
        spaced_hex(out, *b)?;
    }
    Ok(())
}

fn spaced(out: Stdout, n: u8) -> io::Result<()> {
    print::text(out, b" ")?;
    print::decimal(out, u64::from(n))
}

fn spaced_hex(out: Stdout, b: u8) -> io::Result<()> {
    print::text(out, b" ")?;
    print::hex(out, b)
}
