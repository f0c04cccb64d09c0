// What is asked of each port of the lent list: whether it has a record that the reading gives, and whether a group leaves by it.
ghost use Rattle.std.specs.Prelude.{◌≡◌, ◌≤◌, ◌<◌, length, reverse};
ghost use Rattle.std.specs.List.{fold};
ghost use Rattle.multicast.specs.Records.{are_records};
ghost use Rattle.multicast.specs.Inner.{put_below, SetOf};

use crate::{Record, groups};

pub(crate) fn are_records(ports: &[Record]) -> bool
    ensures { result ≡ are_records ports.now }
{
    ports.iter().all(|port| port.is_record())
}

// The Receive bits of some ports, from the last to the first: each is put below those of the ports behind it, which the set has already.
fn gather(ports: &[Record], group: u8, behind: u32) -> u32
    requires { group ≤ 63 }
    ensures { result ≡ fold (put_below group) behind (reverse ports.now) }
{
    ports.iter().rev().fold(
        behind,
        |set, port| set << 1 | groups::bit_of(port.receive, group),
    )
}

// The set of the ports that a group leaves by: those above the one that it enters by, a 0 for that one, and those below.
pub(crate) fn leaving(ports: &[Record], entering: usize, group: u8) -> u32
    requires { (entering < length ports.now) × (length ports.now ≤ 32) × (group ≤ 63) }
    ensures { SetOf ports.now entering group result }
{
    let above = gather(&ports[entering + 1..], group, 0);
    gather(&ports[..entering], group, above << 1)
}
