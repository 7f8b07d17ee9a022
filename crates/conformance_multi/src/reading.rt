// The vectors of reading a multipacket. INPUT is its words. EXPECTED is number (1 byte), place (4), priority (1), n (4); then what the call stores in the lent
// array: 50 heads of six words, zeros beyond n; then the user words that each head tells; then for each inner packet how many words `inner` hands out (1),
// and these. After a refusal nothing is stored, and nothing handed out.
ghost use Rattle.std.specs.Prelude.{◌≤◌, length};

use crate::{heads, words};
use multi::{Answer, HEAD, MAX_INNERS};
use vectors::{Outcome, judged};

// An input must fit: some are far longer than a multipacket may be.
const INPUT_WORDS: usize = 32768;

// Before the heads in an answer, and before the words.
const FRONT: usize = 10;

const WORDS: usize = FRONT + heads::BYTES * MAX_INNERS;

// An answer must fit: 255 user words, twice, and a byte for each inner packet.
const ROOM: usize = 2048;

pub(crate) fn outcome(input: &[u8], expected: &[u8]) -> Outcome {
    let n = input.len() / 2;
    if input.len() % 2 != 0 {
        return Outcome::Unreadable;
    }
    if INPUT_WORDS < n {
        return Outcome::Unreadable;
    }
    let mut words = [0u16; INPUT_WORDS];
    vectors::take_words(input, &mut words[..n]);
    judged(agrees(&words[..n], expected))
}

fn agrees(words: &[u16], expected: &[u8]) -> bool {
    let before = unread();
    let mut heads = lent(&before);
    let answer = multi_reader::read_into(words, &mut heads);
    let after = answered(words, answer, heads);
    vectors::holds(&before, &after, expected)
}

// The room of an answer before the call: zeros, and the pattern in the lent array.
fn unread() -> [u8; ROOM] {
    let mut answer = [0u8; ROOM];
    vectors::pattern(&mut answer[FRONT..WORDS]);
    answer
}

// The lent array before the call.
fn lent(before: &[u8; ROOM]) -> [[u16; HEAD]; MAX_INNERS] {
    let mut heads = [[0u16; HEAD]; MAX_INNERS];
    for i in 0..MAX_INNERS {
        heads[i] = heads::take(before, FRONT + heads::BYTES * i);
    }
    heads
}

fn answered(words: &[u16], answer: Answer, heads: [[u16; HEAD]; MAX_INNERS]) -> [u8; ROOM] {
    let mut out = [0u8; ROOM];
    vectors::put_refusal(&mut out, answer.refusal);
    vectors::put(&mut out, 5, answer.priority);
    vectors::put_number(&mut out, 6, answer.n);
    for (i, head) in heads.iter().enumerate() {
        heads::put(*head, FRONT + heads::BYTES * i, &mut out);
    }
    let end = put_users(words, heads, answer.n, &mut out);
    put_inners(words, end, &mut out);
    out
}

// The user words of the first n heads, one behind the other. Answers the index behind them.
fn put_users(words: &[u16], heads: [[u16; HEAD]; MAX_INNERS], n: usize, out: &mut [u8]) -> usize
    requires { 610 ≤ length out.old }
    ensures { result ≤ length out.new }
{
    let mut end = WORDS;
    for head in heads.iter().take(n) {
        end = words::put(user_of(words, *head), end, out);
    }
    end
}

// The user words of a head: none where they are not among the words.
fn user_of(words: &[u16], head: [u16; HEAD]) -> &[u16] {
    let at = head[4] as usize;
    let count = head[5] as usize;
    words.get(at..at + count).unwrap_or(&[])
}

// What `inner` hands out, packet after packet, until it hands out no words.
fn put_inners(words: &[u16], from: usize, out: &mut [u8])
    requires { from ≤ length out.old }
{
    let mut end = from;
    for i in 0..=MAX_INNERS {
        let inner = multi_reader::inner(words, i);
        if inner.len() == 0 {
            return;
        }
        if end == out.len() {
            return;
        }
        vectors::put(out, end, (inner.len() % 256) as u8);
        end = words::put(inner, end + 1, out);
    }
}
