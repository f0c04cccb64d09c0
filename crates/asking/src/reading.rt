// A completion read back: the checks 3 to 6 in their order, and what it then says.
ghost use Rattle.std.specs.Prelude.{◌≡◌};
ghost use Rattle.asking.specs.Reading.{Reads};
ghost use Rattle.asking.specs.Inner.{Begun, Whole, misplaced, says};

use super::{Completion, Said};
use answers::Refusal;
use packet::{Id, Status};

// The first byte of a completion with data, and of one without.
const WITH_DATA: u8 = 0x4a;

const WITHOUT_DATA: u8 = 0x0a;

// The status bytes.
const SUCCESS: u8 = Status::Success as u8;

const UNSUPPORTED: u8 = Status::Unsupported as u8;

// A byte that no completion has at its place: bytes 1, 2, 3, 7 and 11, of one with data or without.
fn is_misplaced(bytes: &[u8], data: bool) -> bool
    requires { Begun bytes.now «data» }
    ensures { result ≡ misplaced bytes.now «data» }
{
    bytes[1] != 0x00
        || bytes[2] != 0x00
        || bytes[3] != u8::from(data)
        || bytes[7] != 0x04
        || bytes[11] != 0x00
}

// What the status byte of a completion says, with data or without. No completion has another.
#[tactic(auto, unfolding(words::specs::Bytes::four_or_zero))]
fn said_by(bytes: &[u8], data: bool) -> Option<Said>
    requires { Whole bytes.now «data» }
    ensures { result ≡ says bytes.now «data» }
{
    match (data, bytes[6]) {
        (true, SUCCESS) => Some(Said::Shown(words::four(bytes, 12))),
        (false, SUCCESS) => Some(Said::Done),
        (false, UNSUPPORTED) => Some(Said::Unsupported),
        _ => None,
    }
}

// The checks 5 and 6, of a completion with data or without, and its fields.
fn read_begun(bytes: &[u8], data: bool) -> Result<Completion, Refusal>
    requires { Begun bytes.now «data» }
    ensures { Reads bytes.now result }
{
    if bytes.len() != 12 + 4 * usize::from(data) {
        return Err(Refusal::WrongLength);
    }
    if is_misplaced(bytes, data) {
        return Err(Refusal::WrongField);
    }
    let said = said_by(bytes, data).ok_or(Refusal::WrongField)?;
    Ok(Completion {
        completer: Id {
            high: bytes[4],
            low: bytes[5],
        },
        requester: Id {
            high: bytes[8],
            low: bytes[9],
        },
        tag: bytes[10],
        said,
    })
}

// What a completion of any bytes and length says, or the refusal with the lowest number.
pub fn read_completion(bytes: &[u8]) -> Result<Completion, Refusal>
    ensures { Reads bytes.now result }
{
    if bytes.len() < 12 {
        return Err(Refusal::ShortPacket);
    }
    match bytes[0] {
        WITH_DATA => read_begun(bytes, true),
        WITHOUT_DATA => read_begun(bytes, false),
        _ => Err(Refusal::UnknownType),
    }
}
