// The spaces of a function, each with its rules and its marks. They are filled, put and shown by hand, and held against what they should be.
use crate::boards::{Board, Role};
use crate::desks::Desk;
use crate::say;
use crate::saying::Bytes;
use crate::tokens::Tokens;
use crate::vocabulary::Word;
use std::fmt::{self, Display, Formatter};

// The bytes of each buffer: a few more than a space has, so that one of another size can be lent.
pub const LONG: usize = 4100;

// How many words of four bytes these are, and how many bytes are shown on a line.
const WORDS: usize = 1025;

const LINE: usize = 16;

// A buffer, and how much of it is lent to the next question.
#[derive(Clone, Copy)]
pub struct Buffer {
    bytes: [u8; LONG],
    size: usize,
}

impl Buffer {
    fn new(byte: u8) -> Buffer {
        Buffer {
            bytes: [byte; LONG],
            size: words::SPACE,
        }
    }

    pub fn lent(&self) -> &[u8] {
        &self.bytes[..self.size.min(LONG)]
    }

    pub fn lent_mut(&mut self) -> &mut [u8] {
        let size = self.size.min(LONG);
        &mut self.bytes[..size]
    }

    fn from(&self, offset: usize) -> &[u8] {
        self.bytes.get(offset..).unwrap_or(&[])
    }

    // An offset, and the bytes there.
    pub fn put(&mut self, numbers: Tokens) {
        if let Some(place) = self.bytes.get_mut(numbers.number(0)..) {
            numbers.from(1).fill(place);
        }
    }

    // Says whether there is room for them.
    pub fn put_at(&mut self, offset: usize, bytes: &[u8]) -> bool {
        words::put(&mut self.bytes, offset, bytes)
    }

    // Shows so many bytes from an offset on, sixteen to a line.
    pub fn show(&self, from: usize, count: usize) {
        let rest = self.from(from);
        let shown = rest.get(..count).unwrap_or(rest);
        let mut offset = from;
        for line in shown.chunks(LINE) {
            let bytes = Bytes(line);
            say!("{offset:03X}:{bytes}\n");
            offset = offset.wrapping_add(LINE);
        }
    }
}

#[derive(Clone, Copy)]
pub struct Space {
    pub bytes: Buffer,
    pub rules: Buffer,
    pub marks: Buffer,
}

impl Space {
    pub fn new(byte: u8, rule: u8) -> Space {
        Space {
            bytes: Buffer::new(byte),
            rules: Buffer::new(rule),
            marks: Buffer::new(0),
        }
    }

    pub fn lend(&mut self, bytes: usize, rules: usize, marks: usize) {
        self.bytes.size = bytes;
        self.rules.size = rules;
        self.marks.size = marks;
    }

    // Where the first bit is both writable and marked.
    pub fn first_twice(&self) -> Option<usize> {
        let marks = self.marks.lent().iter();
        self.rules
            .lent()
            .iter()
            .zip(marks)
            .position(|(rule, mark)| *rule & *mark != 0)
    }
}

// The six buffers of a function.
#[derive(Clone, Copy, PartialEq, Eq)]
pub enum Part {
    Ordinary,
    OrdinaryRules,
    OrdinaryMarks,
    Trusted,
    TrustedRules,
    TrustedMarks,
}

const PARTS: [Part; 6] = [
    Part::Ordinary,
    Part::OrdinaryRules,
    Part::OrdinaryMarks,
    Part::Trusted,
    Part::TrustedRules,
    Part::TrustedMarks,
];

impl Part {
    // The buffer that a word names.
    pub fn of(word: Word) -> Option<Part> {
        match word {
            Word::Ordinary => Some(Part::Ordinary),
            Word::OrdinaryRules => Some(Part::OrdinaryRules),
            Word::OrdinaryMarks => Some(Part::OrdinaryMarks),
            Word::Trusted => Some(Part::Trusted),
            Word::TrustedRules => Some(Part::TrustedRules),
            Word::TrustedMarks => Some(Part::TrustedMarks),
            _ => None,
        }
    }

    // The space that a question is about: the trusted one where that is named, else the ordinary one.
    pub fn asked(tokens: Tokens) -> Part {
        if tokens.is(1, Word::Trusted) {
            Part::Trusted
        } else {
            Part::Ordinary
        }
    }
}

impl Display for Part {
    fn fmt<W: fmt::Write>(&self, f: &mut Formatter<W>) -> fmt::Result {
        match self {
            Part::Ordinary => write!(f, "ordinary"),
            Part::OrdinaryRules => write!(f, "ordinary-rules"),
            Part::OrdinaryMarks => write!(f, "ordinary-marks"),
            Part::Trusted => write!(f, "trusted"),
            Part::TrustedRules => write!(f, "trusted-rules"),
            Part::TrustedMarks => write!(f, "trusted-marks"),
        }
    }
}

// The bytes that a statement puts, or that the expectation puts there.
pub fn put(board: &mut Board, part: Part, numbers: Tokens) {
    board.at_hand_mut().buffer_mut(part).put(numbers);
}

// A board as it is expected: as before, except for the bytes that are expected to be others.
pub fn wanted(before: &Board, tokens: Tokens) -> Board {
    let mut wanted = *before;
    if tokens.expects(Word::Ordinary) {
        put(&mut wanted, Part::Ordinary, tokens.expected(Word::Ordinary));
    }
    if tokens.expects(Word::Trusted) {
        put(&mut wanted, Part::Trusted, tokens.expected(Word::Trusted));
    }
    wanted
}

// Two boards, and what is told of a word in which they differ: that it changes, or that it is not as expected.
#[derive(Clone, Copy)]
struct Compared<'a, 'b, 'c> {
    one: &'a Board,
    other: &'b Board,
    judged: Option<&'c Desk>,
}

impl Compared<'_, '_, '_> {
    // Tells every word in which the boards differ. Says whether there are any.
    fn tell(self) -> bool {
        let mut differ = false;
        for role in self.one.in_order() {
            differ |= self.tell_function(role);
        }
        differ
    }

    fn tell_function(self, role: Role) -> bool {
        let mut differ = false;
        for part in PARTS {
            differ |= self.tell_buffer(role, part);
        }
        differ
    }

    fn tell_buffer(self, role: Role, part: Part) -> bool {
        let one = self.one.function(role).buffer(part);
        let other = self.other.function(role).buffer(part);
        let mut differ = false;
        for word in 0..WORDS {
            let offset = 4 * word;
            let found = words::four(&one.bytes, offset);
            let wanted = words::four(&other.bytes, offset);
            if found != wanted {
                self.tell_place(role, part, offset);
                self.tell_both(&found, &wanted);
                differ = true;
            }
        }
        differ
    }

    fn tell_place(self, role: Role, part: Part, offset: usize) {
        match self.judged {
            Some(desk) => desk.begin_difference(),
            None => say!("  "),
        }
        put_name(self.one, role, part);
        say!(" {offset:03X}:");
    }

    // Four bytes as they were or are, and as they are or should be.
    fn tell_both(self, found: &[u8], wanted: &[u8]) {
        let found = Bytes(found);
        let wanted = Bytes(wanted);
        match self.judged {
            Some(_) => say!("{found}, expected{wanted}\n"),
            None => say!("{found} ->{wanted}\n"),
        }
    }
}

// The name of a buffer, and of its function where there are two.
pub fn put_name(board: &Board, role: Role, part: Part) {
    if board.is_pair {
        say!("{role} {part}");
    } else {
        say!("{part}");
    }
}

// Tells every word that has changed, or that none has.
pub fn tell_changes(before: &Board, after: &Board) {
    let changes = Compared {
        one: before,
        other: after,
        judged: None,
    };
    if !changes.tell() {
        say!("  no byte changed\n");
    }
}

// Tells every word that is not as expected. Says whether there is none.
pub fn judge(desk: &Desk, after: &Board, wanted: &Board) -> bool {
    let differences = Compared {
        one: after,
        other: wanted,
        judged: Some(desk),
    };
    !differences.tell()
}
