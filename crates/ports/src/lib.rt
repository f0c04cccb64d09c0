#![tactic(auto)]
// A switch's ports: which of a list's ports has a bus, and whether the list is a good one at all. Promised for every list and bus:
// specs/Choice.antt, over specs/Ports.antt in the words of the first change request of document 02.
// `choose` is lent the list, as a slice of ports. Where the ports stand in something else, `Survey::begin`, a `note` for each and `conclude` make
// the same choice of them one by one, on plain numbers (proofs/Noted.antt: noted_is_choice); `choose` itself goes that way.
ghost use Rattle.std.specs.Prelude.{◌≡◌};
ghost use Rattle.answers.specs.declared.Refusal.TheVariants.{BadDescription};
ghost use Rattle.ports.specs.Ports.{has};

mod sets; // sets.rt: sets of the 256 buses
mod choosing; // choosing.rt: the walk over the lent list
mod noting; // noting.rt: a list noted port by port

use answers::Refusal;
pub use choosing::choose;

// The most ports that a list may have.
pub const MOST: u8 = 32;

// A port: the buses behind it, from its secondary to its subordinate, both included, and whether it supports TCS routing: 0 says that it
// does not, any other value that it does. (No bool: C may store any byte there.)
#[repr(C)]
#[derive(Clone, Copy)]
pub struct Port {
    pub secondary: u8,
    pub subordinate: u8,
    pub tcs: u8,
}

impl Port {
    // Whether its range has a bus.
    fn has(self, bus: u8) -> bool
        ensures { result ≡ has self bus }
    {
        self.secondary <= bus && bus <= self.subordinate
    }
}

// A set of buses, 64 to a word: bit 0 of the first is bus 0. (As [u64; 4], with from_fn and zip, a list of 32 ports took a tenth longer.)
#[derive(Clone, Copy)]
pub struct Buses {
    pub first: u64,
    pub second: u64,
    pub third: u64,
    pub fourth: u64,
}

// The port by which a packet leaves, and its place in the list.
#[derive(Clone, Copy)]
pub struct Exit {
    pub place: u8,
    pub port: Port,
}

// The list has too many ports, one that is out of order, or two that meet.
#[derive(Clone, Copy)]
pub struct BadList;

impl From<BadList> for Refusal {
    ghost from_gives = { λ _ refusal. refusal ≡ BadDescription };

    fn from(_list: BadList) -> Refusal {
        Refusal::BadDescription
    }
}

// Of a good list, the port that has the bus, where one has it.
pub type Choice = Result<Option<Exit>, BadList>;

// What is known when some ports of a list have been noted: how many, the buses of all of them, whether one was out of order or met one
// before it, and the last that has the bus asked for, where one has.
#[derive(Clone, Copy)]
pub struct Survey {
    pub bus: u8,
    pub count: u8,
    pub taken: Buses,
    pub bad: bool,
    pub found: Option<Exit>,
}
