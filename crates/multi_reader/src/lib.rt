// Reading a multipacket: a head for each inner packet in lent memory, and the words of an inner packet where they stand. No word is copied.
//
// Normative references: docs/RULES.md, "Multipacket"; document 002 (RDD 8), clause 6.
#![tactic(auto)]

ghost use Rattle.std.specs.Prelude.{◌≡◌, ℕ, ◌+◌, ◌-◌, ◌≤◌, ◌<◌, [], length, get_or};
ghost use Rattle.lists.specs.Part.{part};
ghost use Rattle.lists.specs.Room.{over_at};
ghost use Rattle.refusal.specs.Verdict.{Accepted};
ghost use Rattle.multi.specs.Reading.{inners_verdict, cut};
ghost use Rattle.multi.specs.Lent.{heads_of, ReadsInto, Hands};
ghost use Rattle.multi.specs.Inside.{inners_from};

use multi::{Answer, HEAD, INNER_WORDS, INNERS, MAX_INNERS};
use refusal::{Refusal, Verdict};

// Reads a multipacket, the heads of its inner packets into a lent array, which a refusal leaves as it is.
pub fn read_into(words: &[u16], heads: &mut [[u16; HEAD]; MAX_INNERS]) -> Answer
    ensures { ReadsInto words.now heads.old result heads.new }
{
    let verdict = multi_judge::judge(words);
    let refusal = Refusal::from(verdict);
    if verdict.is_err() {
        return Answer {
            refusal,
            priority: 0,
            n: 0,
        };
    }
    *heads = [[0; HEAD]; MAX_INNERS];
    let n = put_heads(words, INNERS, 0, heads);
    Answer {
        refusal,
        priority: (words[6] % 256) as u8,
        n,
    }
}

// Stores the heads of the inner packets, of which the first stands in word `at`, one behind the other from place i on, and answers how many there
// are then. Those behind the first are stored by this function itself, from the word behind it on: fewer words are left, so that this ends.
// A recursion: the form that RULES, F-6, names.
fn put_heads(words: &[u16], at: usize, i: usize, heads: &mut [[u16; HEAD]; MAX_INNERS]) -> usize
    requires words_len_bound { (length words.now ≤ 262) × (at < length words.now - 1) }
    requires words_value { inners_verdict at (part at (length words.now - 1) words.now) ≡ Accepted }
    requires heads_len { (length heads.old ≡ 50) × (i + length (inners_from at words.now) ≤ 50) }
    ensures value { result ≡ i + length (inners_from at words.now) }
    ensures heads_after { heads.new ≡ over_at i (heads_of at (inners_from at words.now)) heads.old }
{
    let count = words[at + 3] % 256;
    let next = at + INNER_WORDS + count as usize;
    let line_field = words[at];
    heads[i] = [
        line_field % 32,
        line_field / 32 % 2,
        words[at + 1] % 256,
        words[at + 2] % 256,
        at as u16 + 4,
        count,
    ];
    if next + 1 < words.len() {
        return put_heads(words, next, i + 1, heads);
    }
    i + 1
}

// Hands out inner packet i, from LINE/FIELD to NCS: no words where there is no such, and where the multipacket is refused.
pub fn inner<'a>(words: &'a [u16], i: usize) -> &'a [u16]
    ensures { Hands words.now i result.now }
{
    if multi_judge::judge(words).is_err() {
        return &words[0..0];
    }
    hand(&words[INNERS..words.len() - 1], i)
}

// The part of the words that inner packet i is. A recursion: the form that RULES, F-6, names.
fn hand<'a>(rest: &'a [u16], i: usize) -> &'a [u16]
    requires { (at : ℕ) × (inners_verdict at rest.now ≡ Accepted) }
    ensures { result.now ≡ get_or (cut (length rest.now) rest.now) i [] }
{
    let n = rest.len();
    if n == 0 {
        return &rest[0..0];
    }
    let size = INNER_WORDS + (rest[3] % 256) as usize;
    if i == 0 {
        return &rest[0..size];
    }
    hand(&rest[size..n], i - 1)
}
