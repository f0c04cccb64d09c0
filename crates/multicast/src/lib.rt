#![tactic(auto)]
// The Multicast extended capability of a lent configuration space, and what becomes of a packet for an address at a switch, by the records of its ports.
// Every function answers for every input. A capability or an address that is refused tells why and nothing else.
// Promised by specs/Capability.antt and specs/Judging.antt, in the words of the eighth change request of document 02.
mod fields; // fields.rt: the numbers of a record by shift and mask, and which do not go together
mod groups; // groups.rt: the group that an address hits, and a group's bit of a register
mod judging; // judging.rt: an address judged
mod members; // members.rt: what is asked of each port of the lent list
mod reading; // reading.rt: a capability read

pub use judging::judge;
pub use reading::read;

// What a Multicast capability says. The list of a switch's ports has such a record for each, and C has the same seven numbers in this order.
#[repr(C)]
#[derive(Clone, Copy, Debug, Default, PartialEq, Eq, PartialOrd, Ord, Hash)]
pub struct Record {
    pub max_group: u64,
    // The highest group, and not how many there are.
    pub num_group: u64,
    // 0 or 1.
    pub enable: u64,
    pub index: u64,
    // Bits 63:12 in their place.
    pub base: u64,
    // A bit for each group.
    pub receive: u64,
    pub block_all: u64,
}

// The most ports that a list may have.
pub const MOST_PORTS: usize = 32;

// What becomes of a packet for an address. A set of ports has a bit for each, bit 0 for the first of the list.
#[derive(Clone, Copy)]
pub enum Judged {
    NoHit,
    Dropped { group: u8 },
    Leaves { group: u8, ports: u32 },
}
