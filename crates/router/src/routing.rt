// Routing a packet: the checks in their order, and then the request that it is.
ghost use Rattle.std.specs.Prelude.{◌≡◌};
ghost use Rattle.router.specs.Routing.{bus_of};
ghost use Rattle.router.specs.Promise.{Decides, Routes};

use super::{LEAVING, Verdict, passing};
use answers::Refusal;
use ports::{Choice, Port};

// The bus that a packet is for: its byte 8, and 0 where it has none. A packet that short is refused, whatever port has that bus.
pub fn bus_of(packet: &[u8]) -> u8
    ensures { result ≡ bus_of packet.now }
{
    packet.get(8).copied().unwrap_or(0)
}

// Routes a packet of any length by the choice that was made for its bus.
pub fn decide(choice: Choice, packet: &[u8], leaving: &mut [u8]) -> Result<Verdict, Refusal>
    ensures { Decides choice packet.now leaving.old result leaving.new }
{
    let exit = choice?;
    if leaving.len() < LEAVING {
        return Err(Refusal::NoRoom);
    }
    let request = packet::decode(packet)?;
    passing::pass(exit, request, packet, leaving)
}

// Routes a packet of any length by a list of ports of any length, into a buffer of any length.
pub fn route(ports: &[Port], packet: &[u8], leaving: &mut [u8]) -> Result<Verdict, Refusal>
    ensures { Routes ports.now packet.now leaving.old result leaving.new }
{
    decide(ports::choose(ports, bus_of(packet)), packet, leaving)
}
