// A line as tokens: words, numbers of one to sixteen hexadecimal digits, commas. Blanks part them; a comma stands for itself; what follows
// a # is a comment.
ghost use Rattle.std.specs.Prelude.{◌<◌, ◌≤◌, length};

use crate::vocabulary::Word;

// No line has more tokens.
pub const MOST: usize = 128;

// The most digits of a number.
const DIGITS: usize = 16;

#[derive(Clone, Copy, PartialEq, Eq)]
pub enum Kind {
    Number(usize),
    Word(Word),
    Unknown,
}

// What a token is, and where it begins in its line.
#[derive(Clone, Copy)]
pub struct Token {
    kind: Kind,
    begin: usize,
}

impl Token {
    // A room of these is all zero bytes, and soon filled.
    pub const NONE: Token = Token {
        kind: Kind::Number(0),
        begin: 0,
    };

    fn is_number(self) -> bool {
        match self.kind {
            Kind::Number(_) => true,
            Kind::Word(_) | Kind::Unknown => false,
        }
    }

    // Its number, or 0 where it is none.
    fn number(self) -> usize {
        match self.kind {
            Kind::Number(number) => number,
            Kind::Word(_) | Kind::Unknown => 0,
        }
    }
}

// The tokens of a line, put into a room; none of a line that has more than there is room for. By places, since a fault is told by where its token begins.
pub fn read<'a>(line: &[u8], room: &'a mut [Token; MOST]) -> Option<Tokens<'a>> {
    let mut at = 0;
    let mut count = 0;
    while at < line.len() {
        let end = end_of(line, at);
        if line[at] == b'#' {
            break;
        }
        if !is_blank(line[at]) {
            *room.get_mut(count)? = Token {
                kind: kind_of(&line[at..end], count),
                begin: at,
            };
            count += 1;
        }
        at = end;
    }
    Some(Tokens(&room[..count]))
}

fn is_blank(byte: u8) -> bool {
    match byte {
        b' ' | b'\t' => true,
        _ => false,
    }
}

fn is_parting(byte: u8) -> bool {
    match byte {
        b',' | b'#' => true,
        _ => is_blank(byte),
    }
}

// Where the token, or the single blank or comma, that begins at a place ends.
pub fn end_of(line: &[u8], from: usize) -> usize
    requires { from < length line.now }
    ensures { (from < result) × (result ≤ length line.now) }
{
    let behind = &line[from + 1..];
    if is_parting(line[from]) {
        return from + 1;
    }
    match behind.iter().position(|byte| is_parting(*byte)) {
        Some(further) => from + 1 + further,
        None => line.len(),
    }
}

// The first token of a line is a word, whatever it could be besides; the others are numbers where they can be.
fn kind_of(text: &[u8], place: usize) -> Kind {
    if place != 0 && is_number(text) {
        return Kind::Number(number_of(text));
    }
    match Word::of(text) {
        Some(word) => Kind::Word(word),
        None => Kind::Unknown,
    }
}

fn is_number(text: &[u8]) -> bool {
    text.len() <= DIGITS && text.iter().all(|byte| char::from(*byte).is_digit(16))
}

// The value of a text that is a number.
fn number_of(text: &[u8]) -> usize {
    text.iter()
        .fold(0, |number, byte| number << 4 | digit_of(*byte))
}

fn digit_of(byte: u8) -> usize {
    match char::from(byte).to_digit(16) {
        Some(digit) => digit as usize,
        None => 0,
    }
}

// The tokens of a line, or a part of them.
#[derive(Clone, Copy)]
pub struct Tokens<'a>(&'a [Token]);

impl<'a> Tokens<'a> {
    // How many there are.
    pub fn count(self) -> usize {
        self.0.len()
    }

    // What stands at a place. Behind the last token that is a number 0.
    pub fn kind(self, place: usize) -> Kind {
        match self.0.get(place) {
            Some(token) => token.kind,
            None => Kind::Number(0),
        }
    }

    pub fn word(self, place: usize) -> Option<Word> {
        match self.kind(place) {
            Kind::Word(word) => Some(word),
            Kind::Number(_) | Kind::Unknown => None,
        }
    }

    pub fn is(self, place: usize, word: Word) -> bool {
        self.kind(place) == Kind::Word(word)
    }

    // The number at a place, or 0.
    pub fn number(self, place: usize) -> usize {
        match self.0.get(place) {
            Some(token) => token.number(),
            None => 0,
        }
    }

    // Its lowest byte, and its two lowest.
    pub fn byte(self, place: usize) -> u8 {
        (self.number(place) % 0x100) as u8
    }

    pub fn short(self, place: usize) -> u16 {
        (self.number(place) % 0x10000) as u16
    }

    // Four bytes from a place on.
    pub fn four(self, place: usize) -> [u8; 4] {
        [
            self.byte(place),
            self.byte(place.wrapping_add(1)),
            self.byte(place.wrapping_add(2)),
            self.byte(place.wrapping_add(3)),
        ]
    }

    // Where the token at a place begins in its line.
    pub fn begin(self, place: usize) -> Option<usize> {
        self.0.get(place).map(|token| token.begin)
    }

    // The tokens from a place on.
    pub fn from(self, place: usize) -> Tokens<'a> {
        Tokens(self.0.get(place..).unwrap_or(&[]))
    }

    // The tokens before a place.
    pub fn before(self, place: usize) -> Tokens<'a> {
        Tokens(self.0.get(..place).unwrap_or(self.0))
    }

    // Where a word stands first.
    pub fn find(self, word: Word) -> Option<usize> {
        self.0
            .iter()
            .position(|token| token.kind == Kind::Word(word))
    }

    // The numbers that stand at a place and behind it.
    pub fn numbers_from(self, place: usize) -> Tokens<'a> {
        let rest = self.from(place);
        match rest.0.iter().position(|token| !token.is_number()) {
            Some(end) => rest.before(end),
            None => rest,
        }
    }

    // The expectation, with its arrow: nothing where there is none.
    pub fn expectation(self) -> Tokens<'a> {
        match self.find(Word::Arrow) {
            Some(arrow) => self.from(arrow),
            None => Tokens(&[]),
        }
    }

    // Whether the line expects something.
    pub fn is_check(self) -> bool {
        self.find(Word::Arrow).is_some()
    }

    // Whether a word is part of the expectation.
    pub fn expects(self, word: Word) -> bool {
        self.expectation().find(word).is_some()
    }

    // The numbers behind a word of the expectation: none where that does not have this word.
    pub fn expected(self, word: Word) -> Tokens<'a> {
        let expectation = self.expectation();
        match expectation.find(word) {
            Some(place) => expectation.numbers_from(place.wrapping_add(1)),
            None => Tokens(&[]),
        }
    }

    // The first number behind a word of the expectation, where that has this word.
    pub fn first_expected(self, word: Word) -> Option<usize> {
        if self.expects(word) {
            Some(self.expected(word).number(0))
        } else {
            None
        }
    }

    // The numbers, as far as there is room for them, as bytes or as offsets. (One for any type would need a conversion that can fail.)
    pub fn fill(self, room: &mut [u8]) {
        for (byte, token) in room.iter_mut().zip(self.0) {
            *byte = (token.number() % 0x100) as u8;
        }
    }

    pub fn fill_offsets(self, room: &mut [u16]) {
        for (offset, token) in room.iter_mut().zip(self.0) {
            *offset = (token.number() % 0x10000) as u16;
        }
    }
}
