// What became of a packet at the switch, in words: the number, what the packet asks for, and what leaves.
use crate::routing::Routed;
use crate::saying::Bytes;
use crate::{explaining, say};
use answers::Refusal;
use packet::{Request, Target};
use router::Verdict;

pub fn tell(packet: &[u8], routed: Routed, buffer: &[u8]) {
    match packet::decode(packet) {
        Err(_) => put_number(routed, explaining::meaning_of(Refusal::UnknownType)),
        Ok(asked) => {
            put_number(routed, barred(asked));
            explaining::put_request(asked, packet);
        }
    }
    if let Ok(Verdict::Leaves { port, length }) = routed {
        put_leaving(packet, port, buffer.get(..length).unwrap_or(&[]));
    }
}

// What a 4 means for a request without a fault.
fn barred(asked: Request) -> &'static str {
    match asked.target {
        Target::Type0 => "a Type 0 request, which no switch passes on",
        Target::Type1 | Target::Trusted =>
            "a trusted request, and its port does not support TCS routing",
    }
}

// The number and what it means at the switch, with the meaning of a 4.
fn put_number(routed: Routed, four: &str) {
    let meaning = match routed {
        Ok(Verdict::Leaves { .. }) => "routed",
        Ok(Verdict::Unsupported) => "unsupported request (UR): no port has this bus",
        Err(Refusal::BadDescription) =>
            "badly described: more than 32 ports, a secondary over its subordinate, or two ranges that meet",
        Err(Refusal::NoRoom) => "no room: the buffer for what leaves has fewer than 20 bytes",
        Err(Refusal::UnknownType) => four,
        Err(refusal) => explaining::meaning_of(refusal),
    };
    explaining::put_number(answers::number(&routed), meaning);
}

// A packet that leaves altered leaves as Type 0.
fn put_leaving(packet: &[u8], port: u8, left: &[u8]) {
    let bytes = Bytes(left);
    if left.first() == packet.first() {
        say!("  leaves: port {port:X}, unchanged:{bytes}\n");
    } else {
        say!("  leaves: port {port:X}, as Type 0:{bytes}\n");
    }
}
