#![tactic(auto)]
// Why a request is unsupported: the first of document 01's five causes that applies, or none.
// Promised for every board and request: specs/Cause.antt.
ghost use Rattle.std.specs.Prelude.{◌≡◌};
ghost use Rattle.reasons.specs.Cause.{cause_of};
ghost use Rattle.reasons.specs.Inner.{poison_of, trusted_cause};

use board::Description;
use capture::Capture;
use packet::{Request, Target};

// In document 01's order.
#[derive(Clone, Copy, PartialEq, Eq)]
pub enum Cause {
    Type1,
    OtherFunction,
    NothingCaptured,
    OtherAddress,
    PoisonedWrite,
}

#[tactic(auto, unfolding(crate::specs::Inner::poison_of))]
fn poison_cause(request: Request) -> Option<Cause>
    ensures { result ≡ poison_of request }
{
    (request.writes && request.poisoned).then_some(Cause::PoisonedWrite)
}

#[tactic(auto, unfolding(crate::specs::Inner::trusted_cause))]
fn trusted_cause(description: Description, kept: Capture, request: Request) -> Option<Cause>
    ensures { result ≡ trusted_cause description kept request }
{
    let Capture::Number { bus, device } = kept else {
        return Some(Cause::NothingCaptured);
    };
    if request.bus != bus || request.device != device || request.function != description.function {
        return Some(Cause::OtherAddress);
    }
    poison_cause(request)
}

// Why a board does not do what a request asks, or that it does.
#[tactic(auto, unfolding(crate::specs::Cause::cause_of, crate::specs::Inner::trusted_cause, crate::specs::Inner::poison_of))]
pub fn why(description: Description, kept: Capture, request: Request) -> Option<Cause>
    ensures { result ≡ cause_of description kept request }
{
    match request.target {
        Target::Type0 if request.function != description.function => Some(Cause::OtherFunction),
        Target::Type0 => poison_cause(request),
        Target::Type1 => Some(Cause::Type1),
        Target::Trusted => trusted_cause(description, kept, request),
    }
}
