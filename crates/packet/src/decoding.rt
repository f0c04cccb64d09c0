// The checks 3 to 6 in their order, and the request of a packet that passes them.
ghost use Rattle.std.specs.Prelude.{◌≡◌};
ghost use Rattle.packet.specs.Request.{Decodes, DecodesUnder, request_of};
ghost use Rattle.packet.specs.Inner.{KnownHeader};

use super::{Access, Id, Request, fields};
use answers::Refusal;

// The fields of a packet whose type is known.
#[tactic(auto, unfolding(crate::specs::Request::request_of))]
fn request_of(packet: &[u8], access: Access) -> Request
    requires { KnownHeader packet.now access }
    ensures { result ≡ request_of packet.now }
{
    Request {
        target: access.target,
        writes: access.writes,
        poisoned: fields::is_poisoned(packet[2]),
        requester: Id {
            high: packet[4],
            low: packet[5],
        },
        tag: packet[6],
        enables: fields::first_enables(packet[7]),
        bus: packet[8],
        device: fields::device_of(packet[9]),
        function: fields::function_of(packet[9]),
        offset: fields::offset_of(packet[10], packet[11]),
    }
}

// The checks 5 and 6, of a packet whose type is known.
fn decode_known(packet: &[u8], access: Access) -> Result<Request, Refusal>
    requires { KnownHeader packet.now access }
    ensures { Decodes packet.now result }
{
    if packet.len() != fields::whole_length(access.writes, packet[2]) {
        return Err(Refusal::WrongLength);
    }
    if fields::wrong_field(packet[1], packet[2], packet[3], packet[7]) {
        return Err(Refusal::WrongField);
    }
    Ok(request_of(packet, access))
}

// What a packet of any length asks for under an edition, or the refusal with the lowest number. Any edition but the second ignores bit 7 of byte 0.
pub fn decode_under(edition: u32, packet: &[u8]) -> Result<Request, Refusal>
    ensures { DecodesUnder edition packet.now result }
{
    if packet.len() < 12 {
        return Err(Refusal::ShortPacket);
    }
    if fields::refuses_bit_7(edition, packet[0]) {
        return Err(Refusal::UnknownType);
    }
    let access = fields::type_of(fields::type_code(packet[0])).ok_or(Refusal::UnknownType)?;
    decode_known(packet, access)
}

// The same, with bit 7 of byte 0 ignored.
pub fn decode(packet: &[u8]) -> Result<Request, Refusal>
    ensures { Decodes packet.now result }
{
    decode_under(super::EDITION_1, packet)
}
