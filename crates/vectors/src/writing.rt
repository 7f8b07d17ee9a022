// The vectors of a call that writes.
ghost use Rattle.std.specs.Prelude.{◌≡◌, ◌+◌, ◌^◌, ◌<◌, ◌≤◌};
ghost use Rattle.vectors.specs.Numbers.{number_in};

use crate::bytes::{holds, number, put_number, put_refusal};
use crate::cells::pattern;
use crate::tally::{Outcome, judged};
use refusal::Written;

// Before the output in an answer: number (1), place (4), len (4).
const HEAD: usize = 9;

// What becomes of a vector whose input begins with the room of an output, and whose expectation is the answer's head and what the
// call writes. The call is lent an output of that room, which holds its pattern, and must leave it behind what it writes. Head and
// output must fit the answer's room.
pub fn writes<const ROOM: usize, F: FnOnce(&mut [u8]) -> Written>(
    input: &[u8],
    expected: &[u8],
    call: F,
) -> Outcome
    requires callable { F.IsAlwaysCallable call }
    requires room { (9 ≤ ROOM) × (ROOM < 2 ^ 63) }
    ensures { ROOM < 9 + number_in input.now → result ≡ Outcome.Unreadable }
{
    let room = number(input);
    if ROOM - HEAD < room {
        return Outcome::Unreadable;
    }
    let end = HEAD + room;
    let mut before = [0u8; ROOM];
    let mut answer = [0u8; ROOM];
    let before = &mut before[..];
    let answer = &mut answer[..];
    pattern(&mut before[HEAD..]);
    pattern(&mut answer[HEAD..]);
    let written = call(&mut answer[HEAD..end]);
    put_refusal(answer, written.refusal);
    put_number(answer, 5, written.len);
    judged(holds(&before[..end], &answer[..end], expected))
}
