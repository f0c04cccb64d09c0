#![tactic(auto)]
// A configuration packet as it stands on the wire: what any bytes ask for, or the number that refuses them, and the bytes of a
// completion. Promised for every input: specs/Request.antt and specs/Completion.antt, in document 01's words.
ghost use Rattle.std.specs.Prelude.{◌≡◌};
ghost use Rattle.packet.specs.Request.{is_trusted};
ghost use Rattle.packet.specs.Completion.{status_byte};

mod decoding;
mod fields;
mod reply;

pub use decoding::{decode, decode_under};
pub use fields::type_of;
pub use reply::{with_data, without_data};

// The editions of byte 0 that a board may have: the first ignores bit 7, and the second refuses what has it set. (Numbers and no enum: a host gives
// any number, and a board with another edition answers 1.)
pub const EDITION_1: u32 = 1;

pub const EDITION_2: u32 = 2;

// A requester or completer ID, as its two bytes are sent. (In C's layout: a host's structs hold it.)
#[repr(C)]
#[derive(Clone, Copy, PartialEq, Eq, Default)]
pub struct Id {
    pub high: u8,
    pub low: u8,
}

// Where a request is meant for.
#[derive(Clone, Copy, PartialEq, Eq)]
pub enum Target {
    Type0,
    Type1,
    Trusted,
}

impl Target {
    pub fn is_trusted(self) -> bool
        ensures { result ≡ is_trusted self }
    {
        matches!(self, Target::Trusted)
    }
}

// What a type code stands for: whether it writes, and where it goes.
#[derive(Clone, Copy, PartialEq, Eq)]
pub struct Access {
    pub writes: bool,
    pub target: Target,
}

// What a packet without a fault asks for.
#[derive(Clone, Copy, PartialEq, Eq)]
pub struct Request {
    pub target: Target,
    pub writes: bool,
    pub poisoned: bool,
    pub requester: Id,
    pub tag: u8,
    pub enables: u8,
    pub bus: u8,
    pub device: u8,
    pub function: u8,
    pub offset: usize,
}

// What a completion says of the access: it was done, or it is an Unsupported Request (UR) and was not.
#[derive(Clone, Copy, PartialEq, Eq)]
pub enum Status {
    Success = 0x00,
    Unsupported = 0x20,
}

impl Status {
    pub fn byte(self) -> u8
        ensures { result ≡ status_byte self }
    {
        self as u8
    }
}
