#![tactic(auto)]
// The asking side: a configuration request written from its parts, and a completion read back. It knows no board, so that a test host links it
// without one. Promised for every input: specs/Writing.antt and specs/Reading.antt, in document 02's words (5/13).
mod filling;
mod judging;
mod reading;
mod writing;

use packet::Id;
pub use reading::read_completion;
pub use writing::write_request;

// The parts of a request, but for a write's data. The kind is the type code: 04h, 44h (read, write, Type 0), 05h, 45h (Type 1), 1Bh, 5Bh (trusted).
// (A byte and no enum: any kind may be given, and one outside these six is answered 1.)
#[derive(Clone, Copy, PartialEq, Eq)]
pub struct Parts {
    pub kind: u8,
    pub requester: Id,
    pub tag: u8,
    pub bus: u8,
    pub device: u8,
    pub function: u8,
    pub offset: usize,
    pub enables: u8,
}

// What a completion says of the access: a read was done and showed these four bytes, a write was done, or it is an Unsupported Request (UR) and
// nothing was done.
#[derive(Clone, Copy, PartialEq, Eq)]
pub enum Said {
    Shown([u8; 4]),
    Done,
    Unsupported,
}

#[derive(Clone, Copy, PartialEq, Eq)]
pub struct Completion {
    pub completer: Id,
    pub requester: Id,
    pub tag: u8,
    pub said: Said,
}
