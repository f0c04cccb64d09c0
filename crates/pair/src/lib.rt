#![tactic(auto)]
// A board of two functions behind one device, the primary and the alternate: every configuration packet goes to the function that it
// names, and what is for neither is answered by the primary. `serve` and `reset` are the entries; what they promise for every input is
// specs/Promise.antt over specs/Serving.antt, which is over what a board of one function serves.
mod choosing;
mod serving;

use capture::Capture;
pub use serving::{reset, serve};

// What does not change of a function while the board runs: its number, and the places of the Device Correlation word in its ordinary
// space (a) and in its trusted space (b).
#[derive(Clone, Copy)]
pub struct Function {
    pub number: u8,
    pub a: usize,
    pub b: usize,
}

// One of the two functions as it is lent: what does not change of it, what it has captured, and its two spaces with the rules and the
// marks of each.
#[derive(Drop)]
pub struct Side<'a> {
    pub function: Function,
    pub capture: Capture,
    pub ordinary: &'a mut [u8],
    pub ordinary_rules: &'a [u8],
    pub ordinary_marks: &'a [u8],
    pub trusted: &'a mut [u8],
    pub trusted_rules: &'a [u8],
    pub trusted_marks: &'a [u8],
}

// What the two functions have captured, each for itself.
#[derive(Clone, Copy)]
pub struct Captures {
    pub primary: Capture,
    pub alternate: Capture,
}
