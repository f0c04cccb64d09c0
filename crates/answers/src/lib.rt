#![tactic(auto)]
// The answer numbers of document 01, with those of document 02 that are built, named once. What a public entry answers is a `Result` whose error is a
// refusal, and its number is `number_of` or `answered` of specs/Numbers.antt.
ghost use Rattle.std.specs.Prelude.{◌≡◌};
ghost use Rattle.answers.specs.Numbers.{number_of, answered};

// Why nothing was done, each with its number.
#[derive(Clone, Copy, PartialEq, Eq)]
pub enum Refusal {
    BadDescription = 1,
    NoRoom = 2,
    ShortPacket = 3,
    UnknownType = 4,
    WrongLength = 5,
    WrongField = 6,
    OtherStructure = 8,
    WrongExtent = 9,
    NotOneFunction = 10,
    BelowFloor = 11,
    ComesBack = 12,
    WrongGroups = 13,
    NoLayout = 14,
    NotAccepted = 18,
}

impl Refusal {
    pub fn number(self) -> u8
        ensures { result ≡ number_of self }
    {
        self as u8
    }
}

// The number of an answer, whatever it holds: 0 where it is no refusal.
pub fn number<T>(answer: &Result<T, Refusal>) -> u8
    ensures { result ≡ answered answer.now }
{
    match answer {
        Ok(_) => 0,
        Err(refusal) => refusal.number(),
    }
}
