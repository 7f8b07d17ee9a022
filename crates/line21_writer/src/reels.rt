// A reel: a run of access units, seven bytes each in a lent slice, as payload after payload of one size.
//
// Normative references: docs/RULES.md, "Reel" and "Order of checks"; document 004, 3.2.1, Tables 1 and 2.
ghost use Rattle.std.specs.Prelude.{◌≡◌, length};
ghost use Rattle.lists.specs.Room.{over};
ghost use Rattle.refusal.specs.Verdict.{Accepted};
ghost use Rattle.line21.specs.Lent.{run_in};
ghost use Rattle.reel.specs.Writing.{reel, reel_layout};
ghost use Rattle.reel.specs.Lent.{run_verdict, WritesRun};

use crate::write_judged;
use line21::LENT_UNIT;
use refusal::Written;

// Writes a run as payloads of `size` units, one behind the other, at the front of out. All is judged before the first
// byte is stored.
pub fn write_reel(flags: u8, size: usize, units: &[u8], out: &mut [u8]) -> Written
    ensures { WritesRun flags size units.now out.old result out.new }
{
    if let Err(why) = reel::judge_reel(size, units, out.len()) {
        return Written::from(Err(why));
    }
    let len = put_reel(flags, size, units, out);
    Written::from(Ok(len))
}

// Stores the payloads of a run that was judged, each into the rest of the output, and tells how long they are.
fn put_reel(flags: u8, size: usize, units: &[u8], out: &mut [u8]) -> usize
    requires { run_verdict flags size units.now (length out.old) ≡ Accepted }
    ensures value { result ≡ length (reel_layout (reel flags size (run_in units.now))) }
    ensures out_after { out.new ≡ over (reel_layout (reel flags size (run_in units.now))) out.old }
{
    let mut at = 0;
    let mut i = 0;
    let mut left = units.len() / LENT_UNIT;
    // A while: must-fail/unit_repeated_at_the_border makes its step one unit short, for which chunks have no place.
    while 0 < left {
        let m = reel::least(size, left);
        at += write_judged(flags, m, &units[LENT_UNIT * i..], &mut out[at..]);
        i += m;
        left -= m;
    }
    at
}
