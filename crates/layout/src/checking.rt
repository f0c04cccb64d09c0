// The checker: whether a proposal of offsets is accepted, in one pass over them.
ghost use Rattle.std.specs.Prelude.{◌≡◌, ◌≤◌};
ghost use Rattle.layout.specs.Accepting.{Checks};
ghost use Rattle.layout.specs.Structures.{extent};
ghost use Rattle.layout.specs.Inner.{may_stand, accepts};

use super::{START, Structure, structures};
use answers::Refusal;

// Whether a proposal is accepted, structure by structure in the given order.
pub fn check(structures: &[Structure], offsets: &[u16]) -> Result<(), Refusal>
    ensures { Checks structures.now offsets.now result }
{
    if structures::are_bad(structures) {
        return Err(Refusal::BadDescription);
    }
    if !accepts(structures, offsets) {
        return Err(Refusal::NotAccepted);
    }
    Ok(())
}

impl Structure {
    // Whether it may stand at an offset: a multiple of 4, where all before it have ended, and it ends by 1000h.
    fn may_stand(self, ended: usize, at: usize) -> bool
        requires { at ≤ 0xffff }
        ensures { result ≡ may_stand ended (extent self) at }
    {
        at.is_multiple_of(4) && ended <= at && self.ends_at(at) <= words::SPACE
    }
}

// One offset a structure, the first at 100h, and each where it may stand.
fn accepts(structures: &[Structure], offsets: &[u16]) -> bool
    ensures { result ≡ accepts structures.now offsets.now }
{
    if offsets.len() != structures.len() || offsets.first() != Some(&START) {
        return false;
    }
    let mut ended = usize::from(START);
    for (structure, offset) in structures.iter().zip(offsets) {
        let at = usize::from(*offset);
        if !structure.may_stand(ended, at) {
            return false;
        }
        ended = structure.ends_at(at);
    }
    true
}
