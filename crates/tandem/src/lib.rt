#![tactic(auto)]
// What hosts of a board of two functions link, in the same archive as the rest: the entries of pair with plain numbers in the place of enums.
// Each function answers for every input and keeps nothing; what it promises is in specs/, over the promises of the entries that it calls.
// A slice is a pointer and a length. Where the length is 0 the pointer is not followed. No struct has more than 16 bytes.
mod captures; // captures.rt: what two functions have captured
mod serving; // serving.rt: a packet served, a reset

pub use serving::{thawribbon_reset_pair, thawribbon_serve_pair};

// Nothing where `captured` is 0, else the captured bus and device number.
#[repr(C)]
#[derive(Clone, Copy)]
pub struct HostCapture {
    pub captured: u8,
    pub bus: u8,
    pub device: u8,
}

// One of two functions: its number, and the places of its Device Correlation word, A and B.
#[repr(C)]
#[derive(Clone, Copy)]
pub struct HostFunction {
    pub function: u8,
    pub a: u32,
    pub b: u32,
}

// What the two functions have captured, each for itself.
#[repr(C)]
#[derive(Clone, Copy)]
pub struct HostCaptures {
    pub primary: HostCapture,
    pub alternate: HostCapture,
}

#[repr(C)]
#[derive(Clone, Copy)]
pub struct HostPairServed {
    pub length: usize,
    pub number: u8,
    pub kept: HostCaptures,
}
