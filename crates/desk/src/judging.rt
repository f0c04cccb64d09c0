// What was found is held against what a line expects. Every difference is told, of a reply, of what leaves, of what is written and of a list room
// the first; a check without one is as expected.
use crate::desks::Desk;
use crate::say;
use crate::saying::{Hexadecimal, Perhaps};
use crate::tokens::Tokens;
use crate::vocabulary::Word;
use std::fmt::{self, Display, Formatter};

// Two values, where they are not the same. Says whether they are.
fn same<T: PartialEq + Display + Drop>(desk: &Desk, what: &str, found: T, wanted: T) -> bool {
    if found == wanted {
        return true;
    }
    desk.begin_difference();
    say!("{what} {found}, expected {wanted}\n");
    false
}

// The same of lists, which are written with a blank before each item.
pub fn listed<T: Display + Drop>(
    desk: &Desk,
    right: bool,
    what: &str,
    found: T,
    wanted: T,
) -> bool {
    if !right {
        desk.begin_difference();
        say!("{what}{found}, expected{wanted}\n");
    }
    right
}

pub fn value(desk: &Desk, what: &str, found: usize, wanted: usize) -> bool {
    same(desk, what, Hexadecimal(found), Hexadecimal(wanted))
}

// A port or a group, or none.
pub fn perhaps(desk: &Desk, what: &str, found: Option<usize>, wanted: Option<usize>) -> bool {
    same(desk, what, Perhaps(found), Perhaps(wanted))
}

// What a completion says of an access, or what becomes of a packet, by the word for it.
pub fn said(desk: &Desk, found: Option<Word>, wanted: Option<Word>) -> bool {
    same(desk, "says", Saying(found), Saying(wanted))
}

// The answer number, the only one in decimal: the expected one was read as its digits.
pub fn number(desk: &Desk, tokens: Tokens, found: u8) -> bool {
    let digits = tokens.expected(Word::Number).byte(0);
    same(desk, "number", found, 10 * (digits / 16) + digits % 16)
}

// The bytes of a buffer, one by one, up to the first that is another.
pub fn bytes(desk: &Desk, what: &str, found: &[u8], wanted: &[u8]) -> bool {
    for (at, (is, should)) in found.iter().zip(wanted).enumerate() {
        if is != should {
            desk.begin_difference();
            say!("{what} {at:X} is {is:02X}, expected {should:02X}\n");
            return false;
        }
    }
    true
}

// The first of some words that is expected.
pub fn first_of(words: &[Word], tokens: Tokens) -> Option<Word> {
    words.iter().copied().find(|word| tokens.expects(*word))
}

// A word, or that nothing is said.
#[derive(Clone, Copy, PartialEq, Eq)]
struct Saying(Option<Word>);

impl Display for Saying {
    fn fmt<W: fmt::Write>(&self, f: &mut Formatter<W>) -> fmt::Result {
        match self.0 {
            Some(word) => write!(f, "{word}"),
            None => write!(f, "nothing"),
        }
    }
}
