#![tactic(auto)]
// The switch between host and boards: by which port a configuration request leaves, and with which bytes.
// `route` is lent the list of ports. What it promises for every list, packet and buffer is specs/Promise.antt over specs/Routing.antt, in the
// words of the first change request of document 02. `bus_of` and `decide` are its two halves, before and after the choice of a port, for a
// caller that makes the choice itself (`ports`) or wants the answer told in another way.
mod passing; // passing.rt: a request without a fault
mod routing; // routing.rt: the checks, and the entry

pub use routing::{bus_of, decide, route};

// The bytes that the buffer for what leaves must have.
pub const LEAVING: usize = 20;

// What becomes of a packet that is not refused: it leaves by a port of the list, with so many bytes; or it is an Unsupported Request (UR), for no
// port has its bus.
#[derive(Clone, Copy, PartialEq, Eq)]
pub enum Verdict {
    Leaves { port: u8, length: usize },
    Unsupported,
}
