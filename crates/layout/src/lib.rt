#![tactic(auto)]
// The extended list of a new board laid out: a planner proposes offsets, a checker decides, and a layout that it accepts is written as headers.
// Every function answers for every input. A refusal leaves the room, or the space, as it was lent. The writer asks the checker itself, so that nobody has
// to trust where a proposal comes from.
// Promised by specs/Accepting.antt, specs/Proposing.antt and specs/Laying.antt, in the words of the tenth change request of document 02.
mod checking; // checking.rt: whether a proposal is accepted
mod planning; // planning.rt: the lowest proposal that is accepted
mod structures; // structures.rt: which structures may be laid out
mod writing; // writing.rt: the headers of an accepted layout

pub use checking::check;
pub use planning::plan;
pub use writing::write;

// A structure to be laid out: the ID and the version of its header, and its length in bytes.
#[repr(C)]
#[derive(Clone, Copy, Debug, Default, PartialEq, Eq, PartialOrd, Ord, Hash)]
pub struct Structure {
    pub id: u16,
    pub version: u16,
    pub length: u16,
}

// The most structures that a list may have.
pub const MOST: usize = 960;

// Where an extended list begins.
pub(crate) const START: u16 = 0x100;
