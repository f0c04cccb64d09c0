#![tactic(auto)]
// What a host in C or Rust links: the entries of board, lists and records, with plain numbers in the place of enums.
// Each function answers for every input and keeps nothing; what it promises is in specs/, over the promises of the entries that it calls.
// A slice is a pointer and a length. Where the length is 0 the pointer is not followed. No struct has more than 16 bytes.
mod packets; // packets.rt: a packet served, a reset
mod reading; // reading.rt: a DVSEC record and its body, a Dual-BDF record
mod walks; // walks.rt: the three lists

pub use packets::{thawribbon_reset, thawribbon_serve};
pub use reading::{thawribbon_dual_bdf, thawribbon_dvsec, thawribbon_dvsec_body};
pub use walks::{thawribbon_walk_compatible, thawribbon_walk_extended, thawribbon_walk_trusted};

// The function number, the places of the Device Correlation word, A and B, and the edition of byte 0: 1 or 2, and no other.
#[repr(C)]
#[derive(Clone, Copy)]
pub struct HostDescription {
    pub function: u8,
    pub a: u32,
    pub b: u32,
    pub edition: u32,
}

// Nothing where `captured` is 0, else the captured bus and device number. (C has no enum with values.)
#[repr(C)]
#[derive(Clone, Copy)]
pub struct HostCapture {
    pub captured: u8,
    pub bus: u8,
    pub device: u8,
}

// How many bytes of the reply are written, 0 where the number is that of a refusal. (C has no enum with values.)
#[repr(C)]
#[derive(Clone, Copy)]
pub struct HostServed {
    pub length: usize,
    pub number: u8,
    pub capture: HostCapture,
}

#[repr(C)]
#[derive(Clone, Copy)]
pub struct HostWalked {
    pub count: usize,
    pub number: u8,
    pub place: u16,
}

#[repr(C)]
#[derive(Clone, Copy)]
pub struct HostDvsec {
    pub number: u8,
    pub revision: u8,
    pub vendor: u16,
    pub id: u16,
    pub length: u16,
}

// So many bytes of a space, from an offset on.
#[repr(C)]
#[derive(Clone, Copy)]
pub struct HostPart {
    pub start: usize,
    pub length: usize,
}

#[repr(C)]
#[derive(Clone, Copy)]
pub struct HostAlternate {
    pub number: u8,
    pub function: u8,
    pub device: u8,
}
