// Which structures may be laid out.
ghost use Rattle.std.specs.Prelude.{◌≡◌, ◌+◌, ◌≤◌};
ghost use Rattle.layout.specs.Structures.{extent, is_bad, are_bad};
ghost use Rattle.layout.specs.Proposing.{rounded_up};

use super::{MOST, Structure};

const HIGHEST_VERSION: u16 = 15;

const SHORTEST: u16 = 4;

const LONGEST: u16 = 3840;

impl Structure {
    // An ID 0000h, or a version or a length outside its range.
    #[tactic(auto, unfolding(crate::specs::Structures::is_bad))]
    pub(crate) fn is_bad(self) -> bool
        ensures { result ≡ is_bad self }
    {
        self.id == 0
            || HIGHEST_VERSION < self.version
            || !(SHORTEST..=LONGEST).contains(&self.length)
    }

    // Where it ends if it stands at an offset: the first byte behind it.
    pub(crate) fn ends_at(self, at: usize) -> usize
        requires { at ≤ 0xffff }
        ensures { result ≡ at + extent self }
    {
        at + usize::from(self.length)
    }

    // Its length rounded up to 4.
    pub(crate) fn rounded_up(self) -> usize
        ensures { result ≡ rounded_up (extent self) }
    {
        usize::from(self.length).next_multiple_of(4)
    }
}

// None, more than 960, or one of them bad.
#[tactic(auto, unfolding(crate::specs::Structures::are_bad))]
pub(crate) fn are_bad(structures: &[Structure]) -> bool
    ensures { result ≡ are_bad structures.now }
{
    structures.is_empty()
        || MOST < structures.len()
        || structures.iter().any(|structure| structure.is_bad())
}
