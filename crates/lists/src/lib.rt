// Definitions and laws on lists that every carriage cites, what a slice's type tells, and a slice filled with zeros or with another.
#![tactic(auto)]

ghost use Rattle.std.specs.Prelude.{◌≡◌, length, take, replicate};
ghost use Rattle.lists.specs.Bytes.{Bytes};
ghost use Rattle.lists.specs.Room.{over};

// What the type of a lent array tells, said once of all its elements: a proof that has the call need not ask for each. Compiled, nothing is left.
pub fn known(bytes: &[u8])
    ensures { Bytes bytes.now }
{}

// Fills a slice with zeros.
pub fn clear(out: &mut [u8])
    ensures { out.new ≡ replicate (length out.old) 0 }
{
    out.fill(0);
}

// Stores s over the front of out, as much of it as there is room for.
pub fn copy(s: &[u8], out: &mut [u8])
    ensures { out.new ≡ over (take (length out.old) s.now) out.old }
{
    // A loop: the library's copy of a slice calls C's memmove, which the archive does not ask for.
    for i in 0..s.len().min(out.len()) {
        out[i] = s[i];
    }
}
