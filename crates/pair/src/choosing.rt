// Whom a packet is for: the request, once it has no fault, and its byte 9.
ghost use Rattle.std.specs.Prelude.{◌≡◌};
ghost use Rattle.pair.specs.Pair.{is_for};

use packet::Target;

// The packet has no fault, is no Type 1 request, and names this function.
#[tactic(auto, using(crate::proofs::Laws::for_asked, crate::proofs::Laws::type1_only))]
pub(super) fn is_for(edition: u32, number: u8, packet: &[u8]) -> bool
    ensures { result ≡ is_for edition number packet.now }
{
    match packet::decode_under(edition, packet) {
        Ok(request) => !matches!(request.target, Target::Type1) && request.function == number,
        Err(_) => false,
    }
}
