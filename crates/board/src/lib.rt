#![tactic(auto)]
// One function of one endpoint: every configuration packet answered, and every space left, as document 01 says.
// `Board::serve`, `Look::is_badly_described` and `reset` are the entries; what they promise for every input is specs/Promise.antt over
// specs/Serving.antt, and specs/Description.antt.
mod access;
mod completing;
mod describing;
mod marking;
mod serving;

use capture::Capture;
pub use serving::reset;

// What does not change while a board runs: its function number, the places of the Device Correlation word in the ordinary space
// (a) and in the trusted space (b), and its edition of byte 0 (packet::EDITION_1 or packet::EDITION_2; with any other it answers 1).
#[derive(Clone, Copy)]
pub struct Description {
    pub function: u8,
    pub a: usize,
    pub b: usize,
    pub edition: u32,
}

// A board as it is lent: what does not change, what it has captured, and its two spaces with the rules and the marks of each.
#[derive(Drop)]
pub struct Board<'a> {
    pub description: Description,
    pub capture: Capture,
    pub ordinary: &'a mut [u8],
    pub ordinary_rules: &'a [u8],
    pub ordinary_marks: &'a [u8],
    pub trusted: &'a mut [u8],
    pub trusted_rules: &'a [u8],
    pub trusted_marks: &'a [u8],
}

// A board that is only looked at: the same, with nothing to write.
#[derive(Clone, Copy)]
pub struct Look<'a> {
    pub description: Description,
    pub capture: Capture,
    pub ordinary: &'a [u8],
    pub ordinary_rules: &'a [u8],
    pub ordinary_marks: &'a [u8],
    pub trusted: &'a [u8],
    pub trusted_rules: &'a [u8],
    pub trusted_marks: &'a [u8],
}
