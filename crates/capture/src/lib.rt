#![tactic(auto)]
// The captured bus and device number, kept between packets: a state by value, handed back by each of its methods.
// Promised for every state and number: specs/Kept.antt.
ghost use Rattle.std.specs.Prelude.{◌≡◌};
ghost use Rattle.capture.specs.Kept.{forgotten, captured, identified};

use packet::Id;

// What the board has captured. A fresh board has captured nothing. (No `Option`: the state has methods of its own, which hand it back.)
#[derive(Clone, Copy)]
pub enum Capture {
    Nothing,
    Number { bus: u8, device: u8 },
}

// A completer ID, with the state it was made from.
#[derive(Clone, Copy)]
pub struct Identified {
    pub capture: Capture,
    pub id: Id,
}

impl Capture {
    // Reset forgets the capture.
    pub fn reset(self) -> Capture
        ensures { result ≡ forgotten self }
    {
        Capture::Nothing
    }

    pub fn capture(self, bus: u8, device: u8) -> Capture
        ensures { result ≡ captured self bus device }
    {
        Capture::Number { bus, device }
    }

    // The completer ID of a function, which is known by its own number.
    #[tactic(auto, unfolding(crate::specs::Kept::identified, crate::specs::Kept::completer))]
    pub fn completer_id(self, function: u8) -> Identified
        ensures { result ≡ identified self function }
    {
        let id = match self {
            Capture::Nothing => Id {
                high: 0,
                low: function,
            },
            Capture::Number { bus, device } => Id {
                high: bus,
                low: (device << 3).wrapping_add(function),
            },
        };
        Identified { capture: self, id }
    }
}
