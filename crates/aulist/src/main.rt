// Lists the access units of the Line 21 payload that comes on standard input.
#![tactic(auto)]

use line21::{AccessUnit, MAX_BYTES};
use std::io;
use std::io::Stdout;

fn main(rt: HostRuntime) -> io::Result<()> {
    if input::has_word(&rt, 1) {
        return rt.eprint("usage: aulist <PAYLOAD\n");
    }
    // One byte more than a payload may have, so that longer input is noticed.
    let mut payload = [0u8; MAX_BYTES + 1];
    let n = match input::read(rt.stdin(), &mut payload) {
        Ok(n) => n,
        Err(why) => return print::failed(rt.stderr(), "aulist: standard input", why),
    };
    let written = if MAX_BYTES < n {
        let rest = match input::count_rest(rt.stdin()) {
            Ok(rest) => rest,
            Err(why) => return print::failed(rt.stderr(), "aulist: standard input", why),
        };
        print::too_long(rt.stdout(), n + rest)
    } else {
        list(rt.stdout(), &payload[..n])
    };
    written.or_else(|why| print::failed(rt.stderr(), "aulist: standard output", why))
}

// Stops at the first write that fails, as the functions below do.
fn list(out: Stdout, payload: &[u8]) -> io::Result<()> {
    let head = line21::read_head(payload);
    let refusal = head.refusal;
    // By its number: an answer in the layout of C tells no more of a refusal.
    if refusal.number != 0 {
        return print::refused(out, refusal);
    }
    print::text(out, b"flags ")?;
    print::hex(out, head.flags)?;
    print::text(out, b"\nvalid_1 valid_2 padding field1 field2\n")?;
    list_units(out, payload, head.m)
}

fn list_units(out: Stdout, payload: &[u8], m: usize) -> io::Result<()> {
    for i in 0..m {
        if let Ok(unit) = line21::read_unit(payload, i) {
            list_unit(out, unit)?;
        }
    }
    Ok(())
}

fn list_unit(out: Stdout, unit: AccessUnit) -> io::Result<()> {
    print::decimal(out, u64::from(unit.cc_valid_1))?;
    spaced(out, unit.cc_valid_2)?;
    spaced(out, unit.padding)?;
    spaced_hex(out, unit.field1_data1)?;
    spaced_hex(out, unit.field1_data2)?;
    spaced_hex(out, unit.field2_data1)?;
    spaced_hex(out, unit.field2_data2)?;
    print::text(out, b"\n")
}

fn spaced(out: Stdout, n: u8) -> io::Result<()> {
    print::text(out, b" ")?;
    print::decimal(out, u64::from(n))
}

fn spaced_hex(out: Stdout, b: u8) -> io::Result<()> {
    print::text(out, b" ")?;
    print::hex(out, b)
}
