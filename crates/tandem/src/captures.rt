// What two functions have captured: as a host keeps it, and as the library does.
// thawribbon has the conversions of one capture too: no crate can stand on a static library, which both are.
use super::{HostCapture, HostCaptures};
use capture::Capture;
use pair::Captures;

impl From<HostCapture> for Capture {
    ghost use Rattle.std.specs.Prelude.{◌≡◌};
    ghost use Rattle.tandem.specs.Pairs.{kept_by};

    ghost from_gives = { λ kept c. c ≡ kept_by kept };

    fn from(kept: HostCapture) -> Capture {
        if kept.captured == 0 {
            return Capture::Nothing;
        }
        Capture::Number {
            bus: kept.bus,
            device: kept.device,
        }
    }
}

impl From<Capture> for HostCapture {
    ghost use Rattle.std.specs.Prelude.{◌≡◌};
    ghost use Rattle.tandem.specs.Pairs.{told_capture};

    ghost from_gives = { λ c told. told ≡ told_capture c };

    fn from(capture: Capture) -> HostCapture {
        match capture {
            Capture::Nothing => HostCapture {
                captured: 0,
                bus: 0,
                device: 0,
            },
            Capture::Number { bus, device } => HostCapture {
                captured: 1,
                bus,
                device,
            },
        }
    }
}

impl From<HostCaptures> for Captures {
    ghost use Rattle.std.specs.Prelude.{◌≡◌};
    ghost use Rattle.tandem.specs.Pairs.{kept_both};

    ghost from_gives = { λ kept c. c ≡ kept_both kept };

    fn from(kept: HostCaptures) -> Captures {
        Captures {
            primary: Capture::from(kept.primary),
            alternate: Capture::from(kept.alternate),
        }
    }
}

impl From<Captures> for HostCaptures {
    ghost use Rattle.std.specs.Prelude.{◌≡◌};
    ghost use Rattle.tandem.specs.Pairs.{told_both};

    ghost from_gives = { λ c told. told ≡ told_both c };

    fn from(captures: Captures) -> HostCaptures {
        HostCaptures {
            primary: HostCapture::from(captures.primary),
            alternate: HostCapture::from(captures.alternate),
        }
    }
}
