// Whether a board is badly described: its buffers, its numbers, and the bits that are marked.
ghost use Rattle.std.specs.Prelude.{◌≡◌, ◌||◌};
ghost use Rattle.board.specs.Description.{other_edition, out_of_range, wrong_sizes, badly_described};
ghost use Rattle.board.specs.Promise.{looked_at};
ghost use Rattle.capture.specs.Kept.{device_over};

use super::{Look, marking};
use capture::Capture;

// The lowest places of A and of B, and the highest of both.
const LOWEST_A: usize = 0x104;

const LOWEST_B: usize = 0x00c;

const HIGHEST: usize = 0xffc;

fn device_over(kept: Capture) -> bool
    ensures { result ≡ device_over kept }
{
    matches!(kept, Capture::Number { device, .. } if 31 < device)
}

#[tactic(auto, using(crate::proofs::Laws::edition_below, crate::proofs::Laws::edition_above, crate::proofs::Laws::edition_between))]
fn is_other_edition(edition: u32) -> bool
    ensures { result ≡ other_edition edition }
{
    edition < packet::EDITION_1 || packet::EDITION_2 < edition
}

impl Look<'_> {
    // One of the six buffers has another size.
    fn has_wrong_size(&self) -> bool
        ensures { result ≡ (wrong_sizes (looked_at self.now).ordinary || wrong_sizes (looked_at self.now).trusted) }
    {
        self.ordinary.len() != words::SPACE
            || self.ordinary_rules.len() != words::SPACE
            || self.ordinary_marks.len() != words::SPACE
            || self.trusted.len() != words::SPACE
            || self.trusted_rules.len() != words::SPACE
            || self.trusted_marks.len() != words::SPACE
    }

    fn is_out_of_range(&self) -> bool
        ensures { result ≡ out_of_range self.now.description self.now.capture }
    {
        device_over(self.capture)
            || 7 < self.description.function
            || !words::placed(self.description.a, LOWEST_A, HIGHEST)
            || !words::placed(self.description.b, LOWEST_B, HIGHEST)
            || is_other_edition(self.description.edition)
    }

    // Answer 1: the sizes and the board's numbers first, which are soon looked at, and then every bit of the rules and marks.
    #[tactic(auto, unfolding(crate::specs::Description::badly_described))]
    pub fn is_badly_described(&self) -> bool
        ensures { result ≡ badly_described (looked_at self.now) }
    {
        self.has_wrong_size()
            || self.is_out_of_range()
            || marking::is_doubly_marked(self.ordinary_rules, self.ordinary_marks)
            || marking::is_doubly_marked(self.trusted_rules, self.trusted_marks)
    }
}
