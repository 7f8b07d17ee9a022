// The units of an area: start codes, and the search for the units of one kind. It knows no kind of caption.
//
// Normative references: docs/RULES.md, "Picture area"; ISO/IEC 13818-2, start codes.
#![tactic(auto)]

ghost use Rattle.std.specs.Prelude.{◌≡◌, ◌+◌, ◌≤◌, ◌<◌, length};
ghost use Rattle.kind.specs.Ours.{ours};
ghost use Rattle.units.specs.Layout.{started};
ghost use Rattle.units.specs.Split.{next_of, opened, scan_of};
ghost use Rattle.units.specs.Inside.{Bounds, Few, Goes, Notes, Passes, Quiet, Stops};

use kind::Kind;
use refusal::{Item, Reason};

pub const MAX_BYTES: usize = 16384;

pub const START_BYTES: usize = 4;

// user_data_start_code, what follows 00 00 01
pub const USER_DATA: u8 = 0xB2;

// How many places the search looks at in one step, where it can, and how many where all bytes are 0.
const BLOCK: usize = 64;

const ZEROS: usize = 256;

// What the search for the units of one kind found.
#[derive(Clone, Copy)]
pub enum Found {
    // The area is no list of units: 1, 2 or 3.
    NotUnits(Reason, Item),
    Nowhere,
    // One unit: its first byte, and the first behind it.
    At { unit: usize, end: usize },
    // How many there are.
    Many(usize),
}

// Judges an area's start codes and looks for the units of one kind.
pub fn scan(s: &[u8], kind: Kind) -> Found
    ensures { result ≡ scan_of (ours kind) s.now }
{
    if MAX_BYTES < s.len() {
        return Found::NotUnits(Reason::TooLong, Item::Whole);
    }
    if s.is_empty() {
        return Found::Nowhere;
    }
    if !is_opened(s) {
        return Found::NotUnits(Reason::NoStart, Item::Whole);
    }
    let mut found = Found::Nowhere;
    let mut at = 0;
    // A while, as the one in it: the step is not always one.
    'units: while at + START_BYTES <= s.len() {
        // 00 00 01 stands at `at`.
        if s[at + 3] != USER_DATA {
            return Found::NotUnits(Reason::StartCode, Item::Whole);
        }
        let body = at + START_BYTES;
        let mut next = s.len();
        let mut i = body;
        // A short unit has no block to look at.
        let mut stop = bound(s, body, 16);
        while i < stop {
            i = by_bytes(s, i, stop);
            if i < stop {
                next = i;
                break;
            }
            i = by_blocks(s, i);
            stop = bound(s, i, BLOCK);
        }
        let unit = at;
        at = next;
        if !kind::ours(&s[body..next], kind) {
            continue 'units;
        }
        found = noted(found, unit, next);
    }
    if at < s.len() {
        // 00 00 01 at the very end.
        return Found::NotUnits(Reason::StartCode, Item::Whole);
    }
    found
}

// Whether 00 00 01 B2 stands at the front.
fn is_opened(s: &[u8]) -> bool
    ensures { result ≡ opened s.now }
{
    START_BYTES <= s.len() && s[0] == 0 && s[1] == 0 && s[2] == 1 && s[3] == USER_DATA
}

// What was found with one unit of the kind more. Only the first is told, and the others are counted.
fn noted(found: Found, unit: usize, end: usize) -> Found
    requires { Few found }
    ensures { Notes found (record { unit = unit; end = end }) result }
{
    match found {
        Found::NotUnits(_, _) => found,
        Found::Nowhere => Found::At { unit, end },
        Found::At { .. } => Found::Many(2),
        Found::Many(n) => Found::Many(n + 1),
    }
}

// Where the search that goes by bytes from i on stops to look at blocks: `span` places on, or behind the last place at which 00 00 01 has room.
// Near a start a block is looked at in vain, so that after such a look the search goes by bytes for as long as a block.
fn bound(s: &[u8], i: usize, span: usize) -> usize
    requires in_bounds { 2 ≤ length s.now }
    requires i_in_bounds { i ≤ length s.now }
    requires span_nonzero { 0 < span }
    requires span_bound { span ≤ 64 }
    ensures { Bounds s.now i result }
{
    if s.len() - i < span + 2 {
        return s.len() - 2;
    }
    i + span
}

// Goes from place to place up to `stop`, or up to a 00 00 01 before it.
fn by_bytes(s: &[u8], from: usize, stop: usize) -> usize
    requires from_in_bounds { from ≤ length s.now }
    requires stop_in_bounds { stop + 2 ≤ length s.now }
    ensures { Stops s.now from stop result }
{
    // A while: the step is not always one.
    let mut i = from;
    while i < stop {
        let passed = passable(s, i);
        if passed == 0 {
            return i;
        }
        i += passed;
    }
    i
}

// Goes from block to block for as long as they show that no 00 00 01 begins there.
fn by_blocks(s: &[u8], from: usize) -> usize
    requires { from ≤ length s.now }
    ensures { Goes s.now from result }
{
    // A while: the step is not always one.
    let mut i = from;
    while BLOCK + 2 <= s.len() - i {
        if is_blank(s, i) {
            i += ZEROS;
        } else if is_quiet(s, i) {
            i += BLOCK;
        } else {
            return i;
        }
    }
    i
}

// How many places from i on can be passed by what stands there, since no 00 00 01 begins at any of them: none where one begins at i.
fn passable(s: &[u8], i: usize) -> usize
    requires { i + 2 < length s.now }
    ensures { Passes s.now i result }
{
    let third = s[i + 2];
    if 1 < third {
        // A byte above 1 rules out three places.
        return 3;
    }
    if third == 0 {
        return 1;
    }
    if s[i + 1] == 0 && s[i] == 0 {
        return 0;
    }
    // So does a 1 without two zeros before it.
    3
}

// Whether, at the 64 places from i on, no 00 00 01 begins, since at none 00 01 follows. It looks at all of them: a loop that does not leave
// early is done by wide registers.
fn is_quiet(s: &[u8], i: usize) -> bool
    requires { i + 66 ≤ length s.now }
    ensures { Quiet 64 s.now i result }
{
    let mut clean = true;
    for j in 0..BLOCK {
        let second = s[i + j + 1];
        let third = s[i + j + 2];
        if second | third ^ 1 == 0 {
            clean = false;
        }
    }
    clean
}

// Whether, at the 256 places from i on, no 00 00 01 begins, since each third byte is 0.
fn is_blank(s: &[u8], i: usize) -> bool
    requires { i + 2 < length s.now }
    ensures { Quiet 256 s.now i result }
{
    if s[i + 2] != 0 {
        return false;
    }
    if s.len() - i < ZEROS + 2 {
        return false;
    }
    let mut any = 0;
    for j in 0..ZEROS {
        any |= s[i + j + 2];
    }
    any == 0
}

// The first 00 00 01 from index `from` on, or the end: where the unit ends in whose body `from` lies.
pub fn next(s: &[u8], from: usize) -> usize
    ensures { result ≡ next_of s.now from }
{
    // A while: the step is not always one.
    let mut i = from;
    while i < s.len() {
        if s.len() - i < 3 {
            return s.len();
        }
        let stop = bound(s, i, BLOCK);
        i = by_bytes(s, i, stop);
        if i < stop {
            return i;
        }
        i = by_blocks(s, i);
    }
    i
}

// Stores a start code over the front of out. In an output that is shorter than that it stores nothing.
pub fn open(out: &mut [u8])
    ensures { out.new ≡ started out.old }
{
    if out.len() < START_BYTES {
        return;
    }
    out[0] = 0;
    out[1] = 0;
    out[2] = 1;
    out[3] = USER_DATA;
}
