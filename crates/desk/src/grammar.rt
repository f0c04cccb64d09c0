// What a line may say. A statement is a word with its numbers; a question may have an expectation behind an arrow: clauses, each a word
// with its numbers, parted by commas. The first token that does not fit is found before anything is done.
use crate::faults::Misfit;
use crate::rules::ANY;
use crate::tokens::{Kind, Tokens};
use crate::vocabulary::Word;

// The end of a space.
const SPACE_END: usize = 0x1000;

// How many numbers of a request stand before its offset, and how many of a merge before its enables.
const OFFSET_ASKED: usize = 7;

const ENABLES_MERGED: usize = 16;

// How many numbers `sizes` and `merge` had before there were marks.
const OLD_SIZES: usize = 4;

const OLD_MERGE: usize = 13;

// What does not fit, and at which place of the line.
#[derive(Clone, Copy)]
pub struct Fault {
    pub what: Misfit,
    pub place: usize,
}

// Whether each token fits, and whether the line may end where it does; else the first that does not fit. A clause, as the statement, begins with its head.
pub fn check(tokens: Tokens) -> Result<(), Fault> {
    let mut head = 0;
    for place in 0..tokens.count() {
        let at = At {
            tokens,
            head,
            place,
        };
        at.check().map_err(|what| Fault { what, place })?;
        if is_mark(tokens, place) {
            head = place + 1;
        }
    }
    let place = tokens.count();
    let end = At {
        tokens,
        head,
        place,
    };
    end.check_end().map_err(|what| Fault { what, place })
}

fn is_mark(tokens: Tokens, place: usize) -> bool {
    match tokens.word(place) {
        Some(word) => word.is_mark(),
        None => false,
    }
}

// A place of a line, and that of the head before it.
#[derive(Clone, Copy)]
struct At<'a> {
    tokens: Tokens<'a>,
    head: usize,
    place: usize,
}

impl At<'_> {
    fn check(self) -> Result<(), Misfit> {
        match self.tokens.kind(self.place) {
            Kind::Number(number) => self.check_number(number),
            Kind::Unknown if self.place == 0 => Err(Misfit::NoStatement),
            Kind::Unknown => Err(Misfit::Unknown),
            Kind::Word(word) if word.is_mark() => self.check_mark(word),
            Kind::Word(word) => self.check_word(word),
        }
    }

    // The head with how many numbers stand between it and this place; or what is wanted where the numbers have not begun.
    fn numbered(self) -> Result<(Word, usize), Misfit> {
        if self.head == self.place {
            return Err(Misfit::NoWord);
        }
        let head = self.tokens.word(self.head).ok_or(Misfit::NoWord)?;
        let behind = if head.wanted_name().is_some() { 2 } else { 1 };
        match self.place.checked_sub(self.head.wrapping_add(behind)) {
            Some(given) => Ok((head, given)),
            None => Err(Misfit::NoName),
        }
    }

    fn check_number(self, number: usize) -> Result<(), Misfit> {
        let (head, given) = self.numbered()?;
        if head.numbers().most <= given {
            return Err(Misfit::TooMany);
        }
        if largest(head, given) < number {
            return Err(Misfit::TooLarge);
        }
        let first = self.tokens.number(self.place.wrapping_sub(given));
        if SPACE_END < end_of(head, first, given, number) {
            return Err(Misfit::NoFit);
        }
        match head {
            Word::Number => check_answer(number),
            _ => Ok(()),
        }
    }

    // What is missing where a head's numbers end.
    fn check_end(self) -> Result<(), Misfit> {
        let (head, given) = self.numbered()?;
        if self.is_short(head, given) {
            return Err(short_of(head, given));
        }
        Ok(())
    }

    // Whether a head wants more numbers than it has: a port, a structure and a header have three, and a request has its data whole, or not at all where it is
    // no write.
    fn is_short(self, head: Word, given: usize) -> bool {
        let wanted = head.numbers();
        match head {
            _ if given < wanted.least => true,
            Word::Ports | Word::Structures | Word::Headers => given % 3 != 0,
            Word::Ask if given == wanted.least => is_write(self.tokens.byte(1)),
            Word::Ask => given < wanted.most,
            _ => false,
        }
    }

    // An arrow or a comma.
    fn check_mark(self, mark: Word) -> Result<(), Misfit> {
        self.check_end()?;
        let before = self.tokens.before(self.place);
        if mark == Word::Comma {
            return if before.is_check() {
                Ok(())
            } else {
                Err(Misfit::Comma)
            };
        }
        if before.is_check() {
            return Err(Misfit::ArrowAgain);
        }
        match self.tokens.word(0) {
            Some(word) if word.is_question() => Ok(()),
            _ => Err(Misfit::NoQuestion),
        }
    }

    fn check_word(self, word: Word) -> Result<(), Misfit> {
        if self.head == self.place {
            return self.check_head(word);
        }
        match self.numbered() {
            Ok(_) => Err(Misfit::NoNumber),
            Err(_) if self.is_named(word) => Ok(()),
            Err(wanted) => Err(wanted),
        }
    }

    // Whether a word names what the head is about.
    fn is_named(self, word: Word) -> bool {
        let wanted = self
            .tokens
            .word(self.head)
            .and_then(|head| head.wanted_name());
        match wanted {
            Some(name) => word.names(name),
            None => false,
        }
    }

    fn check_head(self, word: Word) -> Result<(), Misfit> {
        if self.place == 0 {
            return if word.is_statement() {
                Ok(())
            } else {
                Err(Misfit::NoStatement)
            };
        }
        match self.tokens.word(0) {
            Some(question) => self.check_clause(question, word),
            None => Err(Misfit::NoClause),
        }
    }

    // Where a number can be expected, it comes first.
    fn check_clause(self, question: Word, word: Word) -> Result<(), Misfit> {
        let before = self.tokens.before(self.place);
        if !word.answers(question) {
            return Err(Misfit::NoClause);
        }
        if is_said(before, word) {
            return Err(Misfit::Again);
        }
        if word != Word::Number && Word::Number.answers(question) && !before.expects(Word::Number) {
            return Err(Misfit::NumberFirst);
        }
        Ok(())
    }
}

// Whether a clause, or one that says the same in another way, is expected already.
fn is_said(before: Tokens, word: Word) -> bool {
    let other = word.other();
    before.expects(word) || before.expects(other) || before.expects(other.other())
}

// How large a number may be behind a head that has so many already. The last one of a merge is the enables, four bits. The offset of a request
// may be any number, and a device or enables any byte: what cannot be asked for is refused with 1, and is no mistake in the line.
fn largest(head: Word, given: usize) -> usize {
    match (head, given) {
        (Word::Merge, ENABLES_MERGED) => 0xf,
        (Word::Ask, OFFSET_ASKED) => ANY,
        (_, 0) => head.numbers().first,
        _ => head.numbers().others,
    }
}

// Where the bytes end that are put, shown or expected from an offset on, or 0 where there are none yet.
fn end_of(head: Word, offset: usize, given: usize, number: usize) -> usize {
    match head {
        _ if given == 0 => 0,
        Word::Ordinary | Word::OrdinaryRules | Word::OrdinaryMarks => offset.wrapping_add(given),
        Word::Trusted | Word::TrustedRules | Word::TrustedMarks => offset.wrapping_add(given),
        Word::Show | Word::Body => offset.wrapping_add(number),
        _ => 0,
    }
}

// An answer number is written in decimal. 7 is none any more, and 15 to 17 are none yet.
fn check_answer(number: usize) -> Result<(), Misfit> {
    match number {
        _ if 9 < number % 16 => Err(Misfit::NoAnswer),
        7 => Err(Misfit::NoSeven),
        0x15..=0x17 => Err(Misfit::NoAnswer),
        _ => Ok(()),
    }
}

// A line from before there were marks is told what it lacks.
fn short_of(head: Word, given: usize) -> Misfit {
    match (head, given) {
        (Word::Sizes, OLD_SIZES) => Misfit::NoMarksSizes,
        (Word::Merge, OLD_MERGE) => Misfit::NoMarksMerged,
        _ => Misfit::TooFew,
    }
}

// The kinds that bring data.
fn is_write(kind: u8) -> bool {
    match kind {
        0x44 | 0x45 | 0x5b => true,
        _ => false,
    }
}
