// The Multicast capability at an offset of a lent space.
ghost use Rattle.std.specs.Prelude.{◌≡◌, ◌+◌, ◌≤◌, length};
ghost use Rattle.multicast.specs.Capability.{long, record_at, tells_capability, capability_says};

use crate::{Record, fields};
use answers::Refusal;

// Where a capability may be asked for.
const LOWEST: usize = 0x100;

const HIGHEST: usize = 0xffc;

// The last of these places with 28h bytes left.
const LAST: usize = 0xfd8;

// The record of the Multicast capability at an offset.
pub fn read(space: &[u8], at: usize) -> Result<Record, Refusal>
    ensures { tells_capability result ≡ capability_says space.now at }
{
    if space.len() != words::SPACE || !words::placed(at, LOWEST, HIGHEST) {
        return Err(Refusal::BadDescription);
    }
    if !fields::is_multicast(words::word(space, at)) {
        return Err(Refusal::OtherStructure);
    }
    if LAST < at {
        return Err(Refusal::WrongExtent);
    }
    let record = record_at(space, at);
    if record.clashes() {
        return Err(Refusal::WrongGroups);
    }
    Ok(record)
}

// The record that stands at an offset.
fn record_at(space: &[u8], at: usize) -> Record
    requires { at + 0x28 ≤ length space.now }
    ensures { result ≡ record_at space.now at }
{
    let [maximum, maximum_high, control, control_high] = words::four(space, at + 0x04);
    fields::record_of(
        u16::from_le_bytes([maximum, maximum_high]),
        u16::from_le_bytes([control, control_high]),
        long_at(space, at + 0x08),
        long_at(space, at + 0x10),
        long_at(space, at + 0x18),
    )
}

fn long_at(space: &[u8], at: usize) -> u64
    requires { at + 8 ≤ length space.now }
    ensures { result ≡ long space.now at }
{
    let [a, b, c, d] = words::four(space, at);
    let [e, f, g, h] = words::four(space, at + 4);
    u64::from_le_bytes([a, b, c, d, e, f, g, h])
}
