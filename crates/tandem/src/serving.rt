// A packet served on a board of two functions that a host lends, and a reset of both. The captures are the host's to keep between packets.
ghost use Rattle.std.specs.Prelude.{◌≡◌};
ghost use Rattle.board.specs.Promise.{space_of};
ghost use Rattle.pair.specs.Pair.{forgotten_both};
ghost use Rattle.tandem.specs.Pairs.{kept_both, told_both, HostPairServes};

use super::{HostCaptures, HostFunction, HostPairServed};
use pair::{Captures, Function, Side};

impl From<HostFunction> for Function {
    ghost use Rattle.std.specs.Prelude.{◌≡◌};
    ghost use Rattle.tandem.specs.Pairs.{function_of};

    ghost from_gives = { λ given f. f ≡ function_of given };

    fn from(given: HostFunction) -> Function {
        Function {
            number: given.function,
            a: given.a as usize,
            b: given.b as usize,
        }
    }
}

#[unsafe(no_mangle)]
pub extern "C" fn thawribbon_serve_pair(
    edition: u32,
    primary: HostFunction,
    alternate: HostFunction,
    kept: HostCaptures,
    primary_ordinary: &mut [u8],
    primary_ordinary_rules: &[u8],
    primary_ordinary_marks: &[u8],
    primary_trusted: &mut [u8],
    primary_trusted_rules: &[u8],
    primary_trusted_marks: &[u8],
    alternate_ordinary: &mut [u8],
    alternate_ordinary_rules: &[u8],
    alternate_ordinary_marks: &[u8],
    alternate_trusted: &mut [u8],
    alternate_trusted_rules: &[u8],
    alternate_trusted_marks: &[u8],
    packet: &[u8],
    reply: &mut [u8],
) -> HostPairServed
    ensures { HostPairServes edition primary alternate kept (space_of primary_ordinary.old primary_ordinary_rules.now primary_ordinary_marks.now) (space_of primary_trusted.old primary_trusted_rules.now primary_trusted_marks.now) (space_of alternate_ordinary.old alternate_ordinary_rules.now alternate_ordinary_marks.now) (space_of alternate_trusted.old alternate_trusted_rules.now alternate_trusted_marks.now) packet.now reply.old result primary_ordinary.new primary_trusted.new alternate_ordinary.new alternate_trusted.new reply.new }
{
    let captures = Captures::from(kept);
    let mut first = Side {
        function: Function::from(primary),
        capture: captures.primary,
        ordinary: primary_ordinary,
        ordinary_rules: primary_ordinary_rules,
        ordinary_marks: primary_ordinary_marks,
        trusted: primary_trusted,
        trusted_rules: primary_trusted_rules,
        trusted_marks: primary_trusted_marks,
    };
    let mut second = Side {
        function: Function::from(alternate),
        capture: captures.alternate,
        ordinary: alternate_ordinary,
        ordinary_rules: alternate_ordinary_rules,
        ordinary_marks: alternate_ordinary_marks,
        trusted: alternate_trusted,
        trusted_rules: alternate_trusted_rules,
        trusted_marks: alternate_trusted_marks,
    };
    let answer = pair::serve(edition, &mut first, &mut second, packet, reply);
    let after = Captures {
        primary: first.capture,
        alternate: second.capture,
    };
    match answer {
        Ok(length) => HostPairServed {
            length,
            number: 0,
            kept: HostCaptures::from(after),
        },
        // A refusal hands both captures back as they were given.
        Err(refusal) => HostPairServed {
            length: 0,
            number: refusal.number(),
            kept,
        },
    }
}

#[unsafe(no_mangle)]
pub extern "C" fn thawribbon_reset_pair(kept: HostCaptures) -> HostCaptures
    ensures { result ≡ told_both (forgotten_both (kept_both kept)) }
{
    HostCaptures::from(pair::reset(Captures::from(kept)))
}
