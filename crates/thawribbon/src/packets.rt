// A packet served on a board that a host lends, and a reset. The capture is the host's to keep between packets.
ghost use Rattle.std.specs.Prelude.{◌≡◌};
ghost use Rattle.capture.specs.Kept.{forgotten};
ghost use Rattle.board.specs.Promise.{space_of};
ghost use Rattle.thawribbon.specs.Packets.{kept_by, told_capture, HostServes};

use super::{HostCapture, HostDescription, HostServed};
use board::{Board, Description};
use capture::Capture;

impl From<HostDescription> for Description {
    ghost use Rattle.std.specs.Prelude.{◌≡◌};
    ghost use Rattle.thawribbon.specs.Packets.{described};

    ghost from_gives = { λ given d. d ≡ described given };

    fn from(given: HostDescription) -> Description {
        Description {
            function: given.function,
            a: given.a as usize,
            b: given.b as usize,
            edition: given.edition,
        }
    }
}

impl From<HostCapture> for Capture {
    ghost use Rattle.std.specs.Prelude.{◌≡◌};
    ghost use Rattle.thawribbon.specs.Packets.{kept_by};

    ghost from_gives = { λ kept c. c ≡ kept_by kept };

    fn from(kept: HostCapture) -> Capture {
        if kept.captured == 0 {
            return Capture::Nothing;
        }
        Capture::Number {
            bus: kept.bus,
            device: kept.device,
        }
    }
}

impl From<Capture> for HostCapture {
    ghost use Rattle.std.specs.Prelude.{◌≡◌};
    ghost use Rattle.thawribbon.specs.Packets.{told_capture};

    ghost from_gives = { λ c told. told ≡ told_capture c };

    fn from(capture: Capture) -> HostCapture {
        match capture {
            Capture::Nothing => HostCapture {
                captured: 0,
                bus: 0,
                device: 0,
            },
            Capture::Number { bus, device } => HostCapture {
                captured: 1,
                bus,
                device,
            },
        }
    }
}

// (A board's parts come one by one: no struct of this interface has more than 16 bytes.)
#[unsafe(no_mangle)]
pub extern "C" fn thawribbon_serve(
    description: HostDescription,
    kept: HostCapture,
    ordinary: &mut [u8],
    ordinary_rules: &[u8],
    ordinary_marks: &[u8],
    trusted: &mut [u8],
    trusted_rules: &[u8],
    trusted_marks: &[u8],
    packet: &[u8],
    reply: &mut [u8],
) -> HostServed
    ensures { HostServes description kept (space_of ordinary.old ordinary_rules.now ordinary_marks.now) (space_of trusted.old trusted_rules.now trusted_marks.now) packet.now reply.old result ordinary.new trusted.new reply.new }
{
    let mut board = Board {
        description: Description::from(description),
        capture: Capture::from(kept),
        ordinary,
        ordinary_rules,
        ordinary_marks,
        trusted,
        trusted_rules,
        trusted_marks,
    };
    match board.serve(packet, reply) {
        Ok(length) => HostServed {
            length,
            number: 0,
            capture: HostCapture::from(board.capture),
        },
        // A refusal hands the capture back as it was given.
        Err(refusal) => HostServed {
            length: 0,
            number: refusal.number(),
            capture: kept,
        },
    }
}

#[unsafe(no_mangle)]
pub extern "C" fn thawribbon_reset(kept: HostCapture) -> HostCapture
    ensures { result ≡ told_capture (forgotten (kept_by kept)) }
{
    HostCapture::from(board::reset(Capture::from(kept)))
}
