#![tactic(auto)]
// What a host of the switch links, in C or Rust: `router::route`, with plain numbers in the place of the result. What it promises for every list of
// ports, packet and buffer is specs/Routes.antt. A slice is a pointer and a length; where the length is 0 the pointer is not followed.
// It is a crate of its own, so that the board's functions are compiled as they are without it (docs/DECISIONS.md, 41). The two halves of
// `router::route` are called, and not that itself.
ghost use Rattle.std.specs.Prelude.{◌≡◌};
ghost use Rattle.backplane.specs.Routes.{told_verdict, HostDecides, HostRoutes};

use answers::Refusal;
use ports::{Choice, Port};
use router::Verdict;

// The number; and where `leaves` is 1, the port's place in the list and how many bytes leave by it. All else is 0. (C has no enum with values.)
#[repr(C)]
#[derive(Clone, Copy, Default)]
pub struct HostRouted {
    pub length: usize,
    pub number: u8,
    pub leaves: u8,
    pub port: u8,
}

impl From<Result<Verdict, Refusal>> for HostRouted {
    ghost from_gives = { λ routed host. host ≡ told_verdict routed };

    fn from(routed: Result<Verdict, Refusal>) -> HostRouted {
        match routed {
            Ok(Verdict::Leaves { port, length }) => HostRouted {
                length,
                number: 0,
                leaves: 1,
                port,
            },
            Ok(Verdict::Unsupported) => HostRouted::default(),
            Err(refusal) => HostRouted {
                number: refusal.number(),
                ..HostRouted::default()
            },
        }
    }
}

// Routes by the choice that was made for the packet's bus.
fn decide(choice: Choice, packet: &[u8], leaving: &mut [u8]) -> HostRouted
    ensures { HostDecides choice packet.now leaving.old result leaving.new }
{
    router::decide(choice, packet, leaving).into()
}

#[unsafe(no_mangle)]
pub extern "C" fn thawribbon_route(ports: &[Port], packet: &[u8], leaving: &mut [u8]) -> HostRouted
    ensures { HostRoutes ports.now packet.now leaving.old result leaving.new }
{
    decide(
        ports::choose(ports, router::bus_of(packet)),
        packet,
        leaving,
    )
}
