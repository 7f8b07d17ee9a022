// Reading an RDD 8 (OP-47) subtitling packet: its numbers, or its rows.
//
// Normative references: docs/RULES.md, "Subtitling packet"; document 002 (RDD 8), clauses 4 and 5.
#![tactic(auto)]

ghost use Rattle.std.specs.Prelude.{◌≡◌, ◌+◌, ◌≤◌, map, length, take, drop};
ghost use Rattle.anc.specs.Words.{byte_of};
ghost use Rattle.sdp.specs.Value.{none, numbers_of, rows_of};
ghost use Rattle.sdp.specs.Layout.{user_length};
ghost use Rattle.sdp.specs.User.{structures_in, user_value};
ghost use Rattle.subtitling.specs.Reading.{Reads, ReadsInto, ReadsRows};

use refusal::Refusal;
use sdp::{DESCRIPTORS, Packet, ROW_BYTES, SLOTS, STRUCTURE_WORDS, STRUCTURES};
use subtitling::{Answer, USER};

// Reads a packet's numbers.
#[tactic(auto, using(crate::proofs::Told::telling))]
pub fn read(words: &[u16]) -> Answer
    ensures { Reads words.now result }
{
    let verdict = subtitling::judge(words);
    let refusal = Refusal::from(verdict);
    match verdict {
        Ok(()) => {
            let packet = packet_in(&words[USER..words.len() - 1]);
            Answer { refusal, packet }
        }
        Err(_) => {
            let packet = nothing();
            Answer { refusal, packet }
        }
    }
}

// Reads the rows of a packet's slots: zeros for an empty slot, and in a refusal.
#[tactic(auto, using(crate::proofs::Told::telling))]
pub fn read_rows(words: &[u16]) -> [[u8; ROW_BYTES]; SLOTS]
    ensures { ReadsRows words.now result }
{
    match subtitling::judge(words) {
        Ok(()) => rows_in(&words[USER..words.len() - 1]),
        Err(_) => [[0; ROW_BYTES]; SLOTS],
    }
}

// Reads a packet's numbers, and its rows into a lent array, which a refusal leaves as it is.
#[tactic(auto, using(crate::proofs::Told::telling))]
pub fn read_into(words: &[u16], rows: &mut [[u8; ROW_BYTES]; SLOTS]) -> Answer
    ensures { ReadsInto words.now rows.old result rows.new }
{
    let verdict = subtitling::judge(words);
    let refusal = Refusal::from(verdict);
    match verdict {
        Ok(()) => {
            let user = &words[USER..words.len() - 1];
            let packet = packet_in(user);
            *rows = rows_in(user);
            Answer { refusal, packet }
        }
        Err(_) => {
            let packet = nothing();
            Answer { refusal, packet }
        }
    }
}

// The numbers that the user words hold.
fn packet_in(user: &[u16]) -> Packet
    requires { 13 ≤ length user.now }
    ensures { result ≡ numbers_of (user_value (map byte_of user.now)) }
{
    let n = user.len();
    let mut slots = [sdp::slot_of(0); SLOTS];
    for i in 0..SLOTS {
        slots[i] = sdp::slot_of((user[DESCRIPTORS + i] % 256) as u8);
    }
    let high = (user[n - 3] % 256) as u32;
    let low = (user[n - 2] % 256) as u32;
    Packet {
        counter: 256 * high + low,
        slots,
    }
}

// The rows that the user words hold: one for each descriptor that is not 0, from the next structure.
fn rows_in(user: &[u16]) -> [[u8; ROW_BYTES]; SLOTS]
    requires { length user.now ≡ user_length (structures_in (map byte_of user.now)) }
    ensures { result ≡ rows_of (user_value (map byte_of user.now)) }
{
    let mut rows = [[0; ROW_BYTES]; SLOTS];
    let mut at = STRUCTURES;
    for i in 0..SLOTS {
        if user[DESCRIPTORS + i] % 256 != 0 {
            rows[i] = row_at(user, at + 3);
            at += STRUCTURE_WORDS;
        }
    }
    rows
}

// The 42 bytes from index at on.
#[tactic(auto, using(crate::proofs::Told::rowing))]
fn row_at(user: &[u16], at: usize) -> [u8; ROW_BYTES]
    requires { at + 42 ≤ length user.now }
    ensures { result ≡ take 42 (drop at (map byte_of user.now)) }
{
    let mut row = [0; ROW_BYTES];
    for j in 0..ROW_BYTES {
        row[j] = (user[at + j] % 256) as u8;
    }
    row
}

// All zero, as in a refusal.
#[tactic(auto, unfolding(sdp::specs::User::slot_of))]
fn nothing() -> Packet
    ensures { result ≡ numbers_of none }
{
    Packet {
        counter: 0,
        slots: [sdp::slot_of(0); SLOTS],
    }
}
