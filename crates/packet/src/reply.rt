// The bytes of a completion.
ghost use Rattle.std.specs.Prelude.{◌≡◌};
ghost use Rattle.packet.specs.Completion.{with_data, without_data};

use super::{Id, Status};

// A successful read: 16 bytes.
#[tactic(auto, unfolding(crate::specs::Completion::with_data))]
pub fn with_data(completer: Id, requester: Id, tag: u8, four: [u8; 4]) -> [u8; 16]
    ensures { result ≡ with_data completer requester tag four }
{
    [
        0x4a,
        0x00,
        0x00,
        0x01,
        completer.high,
        completer.low,
        Status::Success.byte(),
        0x04,
        requester.high,
        requester.low,
        tag,
        0x00,
        four[0],
        four[1],
        four[2],
        four[3],
    ]
}

// Any other: 12 bytes, with the status.
#[tactic(auto, unfolding(crate::specs::Completion::without_data))]
pub fn without_data(completer: Id, status: Status, requester: Id, tag: u8) -> [u8; 12]
    ensures { result ≡ without_data completer status requester tag }
{
    [
        0x0a,
        0x00,
        0x00,
        0x00,
        completer.high,
        completer.low,
        status.byte(),
        0x04,
        requester.high,
        requester.low,
        tag,
        0x00,
    ]
}
