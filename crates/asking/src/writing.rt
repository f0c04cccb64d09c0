// A request written into a lent buffer.
ghost use Rattle.std.specs.Prelude.{◌≡◌};
ghost use Rattle.asking.specs.Writing.{told_written, Writes};
ghost use Rattle.asking.specs.Inner.{shows_put};

use super::{Parts, filling, judging};
use answers::Refusal;

// The bytes at the buffer's start, or 2 where they do not fit, and nothing is written.
fn put_down(buffer: &mut [u8], bytes: &[u8]) -> Result<usize, Refusal>
    ensures { told_written result buffer.new ≡ shows_put bytes.now buffer.old }
{
    if words::put(buffer, 0, bytes) {
        Ok(bytes.len())
    } else {
        Err(Refusal::NoRoom)
    }
}

// Writes a request of any parts into a buffer of any length. The data is ignored for a read.
pub fn write_request(parts: Parts, new: [u8; 4], buffer: &mut [u8]) -> Result<usize, Refusal>
    ensures { Writes parts new buffer.old result buffer.new }
{
    let Some(access) = packet::type_of(parts.kind) else {
        return Err(Refusal::BadDescription);
    };
    if judging::is_out_of_range(parts) {
        return Err(Refusal::BadDescription);
    }
    let header = filling::header_of(parts);
    if access.writes {
        put_down(buffer, &filling::with_data(header, new))
    } else {
        put_down(buffer, &header)
    }
}
