// The checks of reading a PES data field, from left to right.
//
// Normative references: docs/RULES.md, "PES data field" and "Order of checks"; EN 300 472.
#![tactic(auto)]

ghost use Rattle.std.specs.Prelude.{◌≡◌, ◌<◌, length};
ghost use Rattle.pes.specs.Reading.{teletext_verdict, unit_verdict, field_verdict};

use pes::{DATA_UNIT_LENGTH, FRAMING_CODE, MAX_UNITS, STUFFING_ID, UNIT_BYTES};
use refusal::{Fixed, Item, Misfit, Reason, Verdict};

// All checks of a data field.
#[tactic(auto, using(pes::proofs::Judged::steps))]
pub fn judge(s: &[u8]) -> Verdict
    ensures { result ≡ field_verdict s.now }
{
    if s.is_empty() {
        return Err((Reason::Ends, Item::Byte(0)));
    }
    if s[0] / 16 != 1 {
        return Err((Reason::Unfixed(Fixed::Identifier), Item::Byte(0)));
    }
    for i in 0..MAX_UNITS {
        let at = 1 + UNIT_BYTES * i;
        if s.len() <= at {
            return Ok(());
        }
        judge_unit(&s[at..], at)?;
    }
    let end = 1 + UNIT_BYTES * MAX_UNITS;
    if s.len() <= end {
        return Ok(());
    }
    Err((Reason::SurplusUnit, Item::Byte(end)))
}

// The unit that begins at byte `at` of the data field, which has u from there on.
#[tactic(auto, unfolding(pes::specs::Reading::unit_verdict, pes::specs::Reading::teletext_verdict))]
fn judge_unit(u: &[u8], at: usize) -> Verdict
    requires u_nonzero { 0 < length u.now }
    requires at_bound { at < 2048 }
    ensures { result ≡ unit_verdict at u.now }
{
    if !pes::is_known(u[0]) {
        return Err((Reason::UnknownUnit, Item::Byte(at)));
    }
    if u.len() < 2 {
        return Err((Reason::Ends, Item::Byte(at + 1)));
    }
    if u[1] != DATA_UNIT_LENGTH {
        return Err((Reason::Unfit(Misfit::UnitLength), Item::Byte(at + 1)));
    }
    if u[0] != STUFFING_ID {
        return judge_teletext(u, at);
    }
    if u.len() < UNIT_BYTES {
        return Err((Reason::Ends, Item::Byte(at + 2)));
    }
    Ok(())
}

// What teletext has behind data_unit_length.
#[tactic(auto, unfolding(pes::specs::Reading::teletext_verdict, pes::specs::Reading::line_verdict))]
fn judge_teletext(u: &[u8], at: usize) -> Verdict
    requires { at < 2048 }
    ensures { result ≡ teletext_verdict at u.now }
{
    if u.len() < 3 {
        return Err((Reason::Ends, Item::Byte(at + 2)));
    }
    if u[2] / 64 != 3 {
        return Err((Reason::Unfixed(Fixed::UnitReserved), Item::Byte(at + 2)));
    }
    pes::judge_line(u[2] % 32, Item::Byte(at + 2))?;
    if u.len() < 4 {
        return Err((Reason::Ends, Item::Byte(at + 3)));
    }
    if u[3] != FRAMING_CODE {
        return Err((Reason::Unfixed(Fixed::UnitFraming), Item::Byte(at + 3)));
    }
    if u.len() < UNIT_BYTES {
        return Err((Reason::Ends, Item::Byte(at + 4)));
    }
    Ok(())
}
