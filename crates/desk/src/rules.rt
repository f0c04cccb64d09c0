// What follows each word: numbers, so many and so large, and before them perhaps a name; and which words may be expected of which question.
use crate::vocabulary::Word;

// The limit that every number keeps.
pub const ANY: usize = usize::MAX;

// How many numbers a word has at least and at most, and how large the first and the others may be.
#[derive(Clone, Copy)]
pub struct Numbers {
    pub least: usize,
    pub most: usize,
    pub first: usize,
    pub others: usize,
}

fn between(least: usize, most: usize, first: usize, others: usize) -> Numbers {
    Numbers {
        least,
        most,
        first,
        others,
    }
}

fn exactly(count: usize, first: usize, others: usize) -> Numbers {
    between(count, count, first, others)
}

// What a name may name.
#[derive(Clone, Copy, PartialEq, Eq)]
pub enum Name {
    List,
    Buffer,
    Space,
    Function,
}

impl Word {
    pub fn numbers(self) -> Numbers {
        match self {
            Word::Function | Word::Tag => exactly(1, 0xff, 0xff),
            Word::A | Word::B | Word::Edition | Word::Room => exactly(1, ANY, ANY),
            Word::Captured | Word::Alternate => exactly(2, 0xff, 0xff),
            Word::Ordinary | Word::OrdinaryRules | Word::OrdinaryMarks => between(
                2, 0x41, 0xfff, 0xff,
            ),
            Word::Trusted | Word::TrustedRules | Word::TrustedMarks => between(
                2, 0x41, 0xfff, 0xff,
            ),
            Word::Chain => exactly(4, 0xffff, 0xffff),
            Word::Ports => between(0, 0x7e, 0xff, 0xff),
            Word::Records => exactly(1, 0x21, 0x21),
            Word::Record => exactly(8, 0x20, ANY),
            Word::Structures => between(0, 0x7e, 0xffff, 0xffff),
            Word::More => exactly(4, 0x3c1, 0xffff),
            Word::Proposal => between(0, 0x7f, 0xffff, 0xffff),
            Word::Move => exactly(2, 0x3c0, 0xffff),
            Word::Sizes => exactly(6, 0x1001, 0x1001),
            Word::Show => exactly(2, 0x1000, 0x1000),
            _ => self.numbers_asked(),
        }
    }

    // The same of a question, and of what is only expected. Those that are left have none.
    fn numbers_asked(self) -> Numbers {
        match self {
            Word::Packet | Word::Route | Word::Completion => between(0, 0x40, 0xff, 0xff),
            Word::Merge => exactly(0x11, 0xff, 0xff),
            Word::Ask => between(9, 0xd, 0xff, 0xff),
            Word::Dvsec | Word::Dual | Word::Multicast => exactly(1, ANY, ANY),
            Word::Keep => exactly(2, ANY, 0x20),
            Word::Judge => exactly(2, ANY, ANY),
            Word::Number => exactly(1, 0x18, 0x18),
            Word::Reply | Word::Leaves | Word::Writes => between(1, 0x14, 0xff, 0xff),
            Word::Bytes | Word::Shown => exactly(4, 0xff, 0xff),
            Word::Offsets => between(1, 0x40, 0xffff, 0xffff),
            Word::Steps => exactly(3, 0x3fe, 0xffff),
            Word::Place => exactly(1, 0xfff, 0xfff),
            Word::Header => exactly(4, 0xffff, 0xffff),
            Word::Body => exactly(2, 0x1000, 0x1000),
            Word::Port => exactly(1, 0xff, 0xff),
            Word::Completer | Word::Requester => exactly(2, 0xff, 0xff),
            Word::Fields => exactly(7, ANY, ANY),
            Word::Group => exactly(1, 0x3f, 0x3f),
            Word::LeavesBy => between(0, 0x20, 0x1f, 0x1f),
            Word::Headers => between(3, 0x78, 0xffff, 0xffff),
            Word::Alike => exactly(5, 0x3c1, 0xffff),
            _ => exactly(0, 0, 0),
        }
    }

    // What has to be named before the numbers, if anything.
    pub fn wanted_name(self) -> Option<Name> {
        match self {
            Word::Chain | Word::Walk => Some(Name::List),
            Word::Show => Some(Name::Buffer),
            Word::Dvsec | Word::Dual | Word::Multicast | Word::Keep | Word::Write => Some(
                Name::Space,
            ),
            Word::Take => Some(Name::Function),
            _ => None,
        }
    }

    // Whether the word names such a thing.
    pub fn names(self, name: Name) -> bool {
        match (self, name) {
            (Word::Compatible | Word::Extended | Word::Trusted, Name::List) => true,
            (Word::Ordinary | Word::OrdinaryRules | Word::OrdinaryMarks, Name::Buffer) => true,
            (Word::Trusted | Word::TrustedRules | Word::TrustedMarks, Name::Buffer) => true,
            (Word::Ordinary | Word::Trusted, Name::Space) => true,
            (Word::Primary | Word::Alternate, Name::Function) => true,
            _ => false,
        }
    }

    // Whether the word may be expected of a question.
    pub fn answers(self, question: Word) -> bool {
        match (question, self) {
            (Word::Reset | Word::Merge, Word::Number) => false,
            (_, Word::Number) => question.is_question(),
            (Word::Packet | Word::Ask, Word::Ordinary | Word::Trusted | Word::Reply) => true,
            (Word::Packet | Word::Ask | Word::Reset, Word::Captured | Word::Forgotten) => true,
            (Word::Ask, Word::Writes) => true,
            (Word::Merge, Word::Bytes) => true,
            (Word::Walk, Word::Place | Word::Offsets | Word::Steps) => true,
            (Word::Plan, Word::Offsets | Word::Steps) => true,
            (Word::Dvsec, Word::Header | Word::Body) => true,
            (Word::Dual, Word::Alternate) => true,
            (Word::Route, Word::Port | Word::Leaves) => true,
            (Word::Completion, Word::Completer | Word::Requester | Word::Tag) => true,
            (Word::Completion, Word::Shown | Word::Done | Word::Unsupported) => true,
            (Word::Multicast | Word::Keep, Word::Fields) => true,
            (Word::Judge, Word::Group | Word::LeavesBy | Word::Dropped | Word::NoHit) => true,
            (Word::Write, Word::Headers | Word::Alike) => true,
            _ => false,
        }
    }

    // Of two or three words that say the same in as many ways, the next one.
    pub fn other(self) -> Word {
        match self {
            Word::Captured => Word::Forgotten,
            Word::Forgotten => Word::Captured,
            Word::Offsets => Word::Steps,
            Word::Steps => Word::Offsets,
            Word::Headers => Word::Alike,
            Word::Alike => Word::Headers,
            Word::Shown => Word::Done,
            Word::Done => Word::Unsupported,
            Word::Unsupported => Word::Shown,
            Word::LeavesBy => Word::Dropped,
            Word::Dropped => Word::NoHit,
            Word::NoHit => Word::LeavesBy,
            _ => self,
        }
    }
}
