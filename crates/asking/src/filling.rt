// The bytes of a request, by shift and mask.
ghost use Rattle.std.specs.Prelude.{◌≡◌, ◌++◌, ◌≤◌, ◌+◌, ◌*◌};
ghost use Rattle.words.specs.Bytes.{four};
ghost use Rattle.asking.specs.Writing.{header_of};
ghost use Rattle.asking.specs.Inner.{Inside};

use super::Parts;

// Bits 7:3 the device, bits 2:0 the function.
fn device_and_function(device: u8, function: u8) -> u8
    requires device_bound { device ≤ 31 }
    requires function_bound { function ≤ 7 }
    ensures { result ≡ device * 8 + function }
{
    device << 3 | function
}

// The twelve bytes of any request.
pub(super) fn header_of(parts: Parts) -> [u8; 12]
    requires { Inside parts }
    ensures { result ≡ header_of parts }
{
    let [offset_high, offset_low] = (parts.offset as u16).to_be_bytes();
    [
        parts.kind,
        0x00,
        0x00,
        0x01,
        parts.requester.high,
        parts.requester.low,
        parts.tag,
        parts.enables,
        parts.bus,
        device_and_function(parts.device, parts.function),
        offset_high,
        offset_low,
    ]
}

// And the sixteen of a write.
pub(super) fn with_data(header: [u8; 12], new: [u8; 4]) -> [u8; 16]
    ensures { result ≡ four header 0 ++ four header 4 ++ four header 8 ++ four new 0 }
{
    let mut bytes = [0; 16];
    bytes[..12].copy_from_slice(&header);
    bytes[12..].copy_from_slice(&new);
    bytes
}
