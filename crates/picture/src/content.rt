// A kind of caption content.
ghost use Rattle.std.specs.Prelude.{◌≡◌};
ghost use Rattle.kind.specs.declared.Kind.{Kind};
ghost use Rattle.picture.specs.Kinds.{Numbers, none, stored, numbers_of, content_verdict, value_of, places};
ghost use Rattle.picture.specs.Inside.{told_as, ReadsContent};

use kind::Kind;
use refusal::{Judged, Verdict};

// The numbers of a kind's caption unit. Its records lie beside them in a lent array of N bytes.
pub trait Content<const N: usize>: Copy {
    ghost KIND: { Kind };

    // The numbers as the definitions over all kinds have them.
    ghost told: { Self → Numbers KIND };

    const KIND: Kind;

    // All zero.
    fn zeros() -> Self
        ensures { told result ≡ numbers_of KIND (stored KIND (none KIND)) };

    // All checks of a unit's body, for one who does not ask for its numbers and records.
    fn judge(body: &[u8]) -> Verdict
        ensures { result ≡ content_verdict KIND body.now };

    // Reads a unit's body, its records into the array, which a refusal leaves as it is.
    fn read_into(body: &[u8], records: &mut [u8; N]) -> Judged<Self>
        ensures { ReadsContent KIND body.now records.old (told_as told result) records.new };

    ghost wide: { N ≡ places KIND };
}
