// The board at the desk. What statements say is of the function at hand, which is taken by its name. A new board has one function, the primary, and two from
// when its alternate is taken for the first time. While a packet is asked about, the function that it names is at hand, or the primary.
use crate::spaces::{Buffer, Part, Space};
use crate::tokens::Tokens;
use crate::vocabulary::Word;
use capture::Capture;
use std::fmt::{self, Display, Formatter};

// The bytes of a packet's header.
const HEADER: usize = 12;

#[derive(Clone, Copy, PartialEq, Eq)]
pub enum Role {
    Primary,
    Alternate,
}

impl Display for Role {
    fn fmt<W: fmt::Write>(&self, f: &mut Formatter<W>) -> fmt::Result {
        match self {
            Role::Primary => write!(f, "primary"),
            Role::Alternate => write!(f, "alternate"),
        }
    }
}

// The bus and device that a function has captured.
#[derive(Clone, Copy, PartialEq, Eq)]
pub struct Address {
    pub bus: u8,
    pub device: u8,
}

impl Address {
    fn of(capture: Capture) -> Option<Address> {
        match capture {
            Capture::Nothing => None,
            Capture::Number { bus, device } => Some(Address { bus, device }),
        }
    }
}

// What is captured by each of the two functions, or by one that is alone.
#[derive(Clone, Copy, PartialEq, Eq)]
pub struct Kept {
    pub primary: Option<Address>,
    pub alternate: Option<Address>,
}

impl Kept {
    pub fn of(primary: Capture, alternate: Capture) -> Kept {
        Kept {
            primary: Address::of(primary),
            alternate: Address::of(alternate),
        }
    }

    // The same, but for what one of the functions has captured.
    pub fn with(self, role: Role, captured: Option<Address>) -> Kept {
        match role {
            Role::Primary => Kept {
                primary: captured,
                alternate: self.alternate,
            },
            Role::Alternate => Kept {
                primary: self.primary,
                alternate: captured,
            },
        }
    }
}

// A function: its number, A and B, what it has captured, and its two spaces.
#[derive(Clone, Copy)]
pub struct Function {
    pub number: u8,
    pub a: usize,
    pub b: usize,
    pub captured: Option<Address>,
    pub ordinary: Space,
    pub trusted: Space,
}

impl Function {
    fn new(number: u8, ordinary: u8, trusted: u8, rule: u8) -> Function {
        Function {
            number,
            a: 0x104,
            b: 0x00c,
            captured: None,
            ordinary: Space::new(ordinary, rule),
            trusted: Space::new(trusted, rule),
        }
    }

    pub fn capture(&self) -> Capture {
        match self.captured {
            None => Capture::Nothing,
            Some(Address { bus, device }) => Capture::Number { bus, device },
        }
    }

    pub fn buffer(&self, part: Part) -> &Buffer {
        match part {
            Part::Ordinary => &self.ordinary.bytes,
            Part::OrdinaryRules => &self.ordinary.rules,
            Part::OrdinaryMarks => &self.ordinary.marks,
            Part::Trusted => &self.trusted.bytes,
            Part::TrustedRules => &self.trusted.rules,
            Part::TrustedMarks => &self.trusted.marks,
        }
    }

    pub fn buffer_mut(&mut self, part: Part) -> &mut Buffer {
        match part {
            Part::Ordinary => &mut self.ordinary.bytes,
            Part::OrdinaryRules => &mut self.ordinary.rules,
            Part::OrdinaryMarks => &mut self.ordinary.marks,
            Part::Trusted => &mut self.trusted.bytes,
            Part::TrustedRules => &mut self.trusted.rules,
            Part::TrustedMarks => &mut self.trusted.marks,
        }
    }

    // The next question is lent so much of each buffer, in their order.
    pub fn lend(&mut self, sizes: [usize; 6]) {
        self.ordinary.lend(sizes[0], sizes[1], sizes[2]);
        self.trusted.lend(sizes[3], sizes[4], sizes[5]);
    }
}

#[derive(Clone, Copy)]
pub struct Board {
    // As large as it was typed.
    pub edition: usize,
    pub primary: Function,
    // It stands ready until it is taken for the first time.
    pub alternate: Function,
    pub is_pair: bool,
    pub at_hand: Role,
}

impl Board {
    // The bench sheet's board, with nothing captured, and the alternate that it may be given, alike but for its number. No bit is marked.
    pub fn new(ordinary: u8, trusted: u8, rule: u8) -> Board {
        Board {
            edition: 1,
            primary: Function::new(0, ordinary, trusted, rule),
            alternate: Function::new(1, ordinary, trusted, rule),
            is_pair: false,
            at_hand: Role::Primary,
        }
    }

    pub fn function(&self, role: Role) -> &Function {
        match role {
            Role::Primary => &self.primary,
            Role::Alternate => &self.alternate,
        }
    }

    pub fn at_hand(&self) -> &Function {
        self.function(self.at_hand)
    }

    pub fn at_hand_mut(&mut self) -> &mut Function {
        match self.at_hand {
            Role::Primary => &mut self.primary,
            Role::Alternate => &mut self.alternate,
        }
    }

    // The function at hand, and the one beside it.
    pub fn in_order(&self) -> [Role; 2] {
        match self.at_hand {
            Role::Primary => [Role::Primary, Role::Alternate],
            Role::Alternate => [Role::Alternate, Role::Primary],
        }
    }

    // A board of one function stays as it is where its primary is taken.
    pub fn take(&mut self, role: Role) {
        self.at_hand = role;
        if role == Role::Alternate {
            self.is_pair = true;
        }
    }

    // Of two functions the one that a packet or a request names: the alternate, where it is that, else the primary. Any other question is about the one at
    // hand. Byte 9 of a packet has the number; one that is shorter than a header names none.
    pub fn named(&self, question: Word, tokens: Tokens) -> Role {
        match question {
            _ if !self.is_pair => self.at_hand,
            Word::Packet if tokens.numbers_from(1).count() < HEADER => Role::Primary,
            Word::Packet => self.numbered(tokens.byte(10) % 8),
            Word::Ask => self.numbered(tokens.byte(7)),
            _ => self.at_hand,
        }
    }

    fn numbered(&self, number: u8) -> Role {
        if number == self.alternate.number {
            Role::Alternate
        } else {
            Role::Primary
        }
    }

    // A board's edition has 32 bits. A number over them is no edition, and the highest, which is none either, stands for it: nothing is cut off.
    pub fn edition(&self) -> u32 {
        u32::try_from(self.edition).unwrap_or(u32::MAX)
    }

    pub fn kept(&self) -> Kept {
        Kept {
            primary: self.primary.captured,
            alternate: self.alternate.captured,
        }
    }

    pub fn keep(&mut self, kept: Kept) {
        self.primary.captured = kept.primary;
        self.alternate.captured = kept.alternate;
    }

    // The next question is lent whole buffers.
    pub fn lend_all(&mut self) {
        self.primary.lend([words::SPACE; 6]);
        self.alternate.lend([words::SPACE; 6]);
    }
}
