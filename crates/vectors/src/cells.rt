// The pattern of an output: what stands in it before a call, so that a store that should not be shows.
ghost use Rattle.std.specs.Prelude.{◌≡◌, ℕ, ◌<◌, length, slice_get};
ghost use Rattle.vectors.specs.Numbers.{pattern_at};

// What an output is made of.
pub trait Cell: Copy {
    ghost pattern_at: { ℕ → Self };

    // The pattern's element at an index.
    fn pattern_at(i: usize) -> Self
        ensures { result ≡ pattern_at i };
}

// In each the index is cut first, so that the product fits.
impl Cell for u8 {
    ghost pattern_at = { pattern_at 256 };

    fn pattern_at(i: usize) -> u8 {
        ((i % 256 * 37 + 11) % 256) as u8
    }
}

impl Cell for u16 {
    ghost pattern_at = { pattern_at 65536 };

    fn pattern_at(i: usize) -> u16 {
        ((i % 65536 * 37 + 11) % 65536) as u16
    }
}

// Fills an output with its pattern.
pub fn pattern<T: Cell>(out: &mut [T])
    ensures size { length out.new ≡ length out.old }
    ensures each { (k : ℕ) → k < length out.old → slice_get out.new k ≡ Some (T.pattern_at k) }
{
    for (i, cell) in out.iter_mut().enumerate() {
        *cell = T::pattern_at(i);
    }
}
