// Why a line is not understood, told with the line's number and the word at fault. Nothing of such a line is done.
use std::fmt::{self, Display, Formatter};

// What a word, or the line's end, is where something else is wanted.
#[derive(Clone, Copy)]
pub enum Misfit {
    Unknown,
    NoStatement,
    NoWord,
    NoName,
    NoNumber,
    TooMany,
    TooFew,
    TooLarge,
    NoFit,
    NoQuestion,
    NoClause,
    Again,
    ArrowAgain,
    Comma,
    NumberFirst,
    NoAnswer,
    NoSeven,
    NoMarksSizes,
    NoMarksMerged,
}

impl Misfit {
    fn text(self) -> &'static str {
        match self {
            Misfit::Unknown =>
                "is no word of the desk, and no number of one to sixteen hexadecimal digits",
            Misfit::NoStatement => "is not a statement; help lists them",
            Misfit::NoWord => "stands where a word is wanted",
            Misfit::NoName => "stands where the name of a list, a space or a function is wanted",
            Misfit::NoNumber => "stands where a number, a comma or the line's end is wanted",
            Misfit::TooMany => "is a number too many",
            Misfit::TooFew => "stands where a number is still wanted",
            Misfit::TooLarge => "is too large here",
            Misfit::NoFit => "does not fit: a space ends at FFF",
            Misfit::NoQuestion => "stands behind a statement that has no answer to expect",
            Misfit::NoClause => "cannot be expected of this",
            Misfit::Again => "says again what is expected already",
            Misfit::ArrowAgain => "stands a second time",
            Misfit::Comma => "stands outside an expectation",
            Misfit::NumberFirst => "stands where the expected number is wanted first",
            Misfit::NoAnswer =>
                "is no answer number: those are 0 to 14 and 18, and the only numbers in decimal",
            Misfit::NoSeven => "is given no more: a broken list is 11 or 12, with its place",
            Misfit::NoMarksSizes =>
                "stands where two numbers more are wanted: sizes has six, each space with its rules and its marks",
            Misfit::NoMarksMerged =>
                "stands where four numbers more are wanted: merge has seventeen, with four marks behind the rules",
        }
    }
}

impl Display for Misfit {
    fn fmt<W: fmt::Write>(&self, f: &mut Formatter<W>) -> fmt::Result {
        f.write_str(self.text())
    }
}

// What is wrong with a line, or the whole input, whatever its words are.
#[derive(Clone, Copy)]
pub enum Wrong {
    TooLong,
    TooManyTokens,
    Return,
    SheetAgain,
    NoSheet,
    NoEnd,
    Unread,
    NoChain,
    NoRecord,
    NoStructures,
    NoOffset,
    NoHeader,
}

impl Wrong {
    fn text(self) -> &'static str {
        match self {
            Wrong::TooLong => "has 4,000 characters or more; none of it is read",
            Wrong::TooManyTokens => "has more than 128 words and numbers; none of it is read",
            Wrong::Return => "a carriage return stands within the line; none of it is read",
            Wrong::SheetAgain => "a sheet begins before the last one has ended",
            Wrong::NoSheet => "a sheet ends that has not begun",
            Wrong::NoEnd => "the sheet has no end: was it cut?",
            Wrong::Unread => "the input could not be read to its end",
            Wrong::NoChain =>
                "the chain does not fit: its headers leave the space, or a pointer is too large",
            Wrong::NoRecord =>
                "the list of records has no such port: records C begins one for C ports",
            Wrong::NoStructures => "the list of structures has no place for so many: there are 3C1",
            Wrong::NoOffset =>
                "the proposal has no such offset: plan makes one, and so does proposal",
            Wrong::NoHeader =>
                "a header that is expected does not fit: its offset is over FFC, or its version over F",
        }
    }
}

impl Display for Wrong {
    fn fmt<W: fmt::Write>(&self, f: &mut Formatter<W>) -> fmt::Result {
        f.write_str(self.text())
    }
}
