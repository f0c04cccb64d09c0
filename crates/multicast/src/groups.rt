// The group that an address hits at a port, and a group's bit of a register.
ghost use Rattle.std.specs.Prelude.{◌≡◌, true, ◌≤◌};
ghost use Rattle.words.specs.Fields.{bit};
ghost use Rattle.multicast.specs.Records.{is_record};
ghost use Rattle.multicast.specs.Inner.{Hits};

use crate::Record;

// The group whose window has the address, where the port is enabled and has one.
#[tactic(auto, unfolding(crate::specs::Judging::is_hit))]
pub(crate) fn hit_by(port: &Record, address: u64) -> Option<u8>
    requires { is_record port.now ≡ true }
    ensures { Hits port.now address result }
{
    if port.enable == 0 || address < port.base {
        return None;
    }
    let group = (address - port.base) >> port.index;
    if port.num_group < group {
        return None;
    }
    Some(group as u8)
}

// The bit of a register for a group, 0 or 1.
pub(crate) fn bit_of(register: u64, group: u8) -> u32
    requires { group ≤ 63 }
    ensures { result ≡ bit group register }
{
    ((register >> group) & 1) as u32
}
