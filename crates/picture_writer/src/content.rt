// A kind of caption content that can be written.
ghost use Rattle.picture.specs.Kinds.{unit_in};
ghost use Rattle.picture.specs.Inside.{WritesBody};

use picture::Content;
use refusal::Judged;

// Numbers whose unit can be written, its records told by a lent array of N bytes.
pub trait Writable<const N: usize>: Content<N> {
    // Writes a unit's body into out from index `before` on. Judged is the whole result, which has `before` bytes in front of the body and `after`
    // bytes behind it. Answers how many bytes the body has.
    fn write_body(
        self,
        records: &[u8; N],
        before: usize,
        after: usize,
        out: &mut [u8],
    ) -> Judged<usize>
        ensures { WritesBody Self.KIND (unit_in Self.KIND (Self.told self) records.now) before after out.old result out.new };
}

impl Writable<{ scte20::LENT_RECORDS }> for scte20::Numbers {
    fn write_body(
        self,
        records: &[u8; scte20::LENT_RECORDS],
        before: usize,
        after: usize,
        out: &mut [u8],
    ) -> Judged<usize> {
        scte20_writer::write_from(self, records, before, after, out)
    }
}

impl Writable<{ ga94::LENT_RECORDS }> for ga94::Numbers {
    fn write_body(
        self,
        records: &[u8; ga94::LENT_RECORDS],
        before: usize,
        after: usize,
        out: &mut [u8],
    ) -> Judged<usize> {
        ga94_writer::write_from(self, records, before, after, out)
    }
}
