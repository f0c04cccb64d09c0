// An address judged, by the records of a switch's ports and the place of the one that the packet enters by.
ghost use Rattle.multicast.specs.Judging.{Judges};

use crate::{Judged, MOST_PORTS, Record, groups, members};
use answers::Refusal;

// What becomes of a packet for an address.
pub fn judge(ports: &[Record], entering: usize, address: u64) -> Result<Judged, Refusal>
    ensures { Judges ports.now entering address result }
{
    if MOST_PORTS < ports.len() || ports.len() <= entering || !members::are_records(ports) {
        return Err(Refusal::BadDescription);
    }
    let port = &ports[entering];
    let Some(group) = groups::hit_by(port, address) else {
        return Ok(Judged::NoHit);
    };
    if groups::bit_of(port.block_all, group) == 1 {
        return Ok(Judged::Dropped { group });
    }
    let ports = members::leaving(ports, entering, group);
    Ok(Judged::Leaves { group, ports })
}
