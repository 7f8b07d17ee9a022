// What the rules over user words share with writing: 7 of a line, and the sum of bytes.
ghost use Rattle.std.specs.Prelude.{◌≡◌, ◌%◌, map};
ghost use Rattle.lists.specs.Sum.{sum};
ghost use Rattle.anc.specs.Words.{byte_of};
ghost use Rattle.sdp.specs.User.{line_verdict};

use refusal::{Item, Reason, Verdict};

// 7 of a descriptor's line.
#[tactic(auto, unfolding(crate::specs::User::line_verdict))]
pub fn judge_line(line: u8, item: Item) -> Verdict
    ensures { result ≡ line_verdict item line }
{
    refusal::judge_line::<6>(line, Reason::DescriptorLine, item)
}

// The sum of the words' bytes, modulo 256.
#[tactic(auto, using(crate::proofs::Bytes::sums))]
pub fn byte_sum(words: &[u16]) -> u16
    ensures { result ≡ sum (map byte_of words.now) % 256 }
{
    anc::sum(words) % 256
}
