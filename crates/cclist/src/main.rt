// Lists the captions of the picture area that comes on standard input (docs/RULES.md, "Programs").
#![tactic(auto)]

use std::io;
use std::io::Stdout;
use units::MAX_BYTES;

fn main(rt: HostRuntime) -> io::Result<()> {
    if input::has_word(&rt, 1) {
        return rt.eprint("usage: cclist <AREA\n");
    }
    // One byte more than an area may have, so that longer input is noticed.
    let mut area = [0u8; MAX_BYTES + 1];
    let n = match input::read(rt.stdin(), &mut area) {
        Ok(n) => n,
        Err(why) => return print::failed(rt.stderr(), "cclist: standard input", why),
    };
    match list(rt.stdout(), &area[..n]) {
        Ok(()) => Ok(()),
        Err(why) => print::failed(rt.stderr(), "cclist: standard output", why),
    }
}

// Answers whether all was written.
fn list(out: Stdout, area: &[u8]) -> io::Result<()> {
    let text = listing::text_of(picture::read(area));
    let bytes = text.bytes;
    let len = text.len;
    print::text(out, &bytes[..len])
}
