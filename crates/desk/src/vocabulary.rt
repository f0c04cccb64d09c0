// The words of the desk's language, as they are written.
use std::fmt::{self, Display, Formatter};

#[derive(Clone, Copy, PartialEq, Eq)]
pub enum Word {
    // Statements about the desk itself.
    Help,
    Echo,
    Sheet,
    End,
    // Statements that set the board, the ports of the switch with their records, and the structures of a new board with their proposal; some of
    // them are expected too.
    Fresh,
    Open,
    Blank,
    Take,
    Function,
    A,
    B,
    Edition,
    Captured,
    Forgotten,
    Ordinary,
    Trusted,
    OrdinaryRules,
    TrustedRules,
    OrdinaryMarks,
    TrustedMarks,
    Chain,
    Ports,
    Records,
    Record,
    Structures,
    More,
    Proposal,
    Move,
    Sizes,
    Room,
    // To look, and the questions.
    Show,
    Packet,
    Reset,
    Merge,
    Walk,
    Dvsec,
    Dual,
    Route,
    Ask,
    Completion,
    Multicast,
    Keep,
    Judge,
    Plan,
    Accept,
    Write,
    // What is only expected.
    Number,
    Reply,
    Bytes,
    Offsets,
    Steps,
    Place,
    Header,
    Body,
    Alternate,
    Port,
    Leaves,
    Writes,
    Completer,
    Requester,
    Tag,
    Shown,
    Done,
    Unsupported,
    Fields,
    Group,
    LeavesBy,
    Dropped,
    NoHit,
    Headers,
    Alike,
    // The lists, beside the trusted one.
    Compatible,
    Extended,
    // A function of a board, beside the alternate.
    Primary,
    // The marks of an expectation.
    Arrow,
    Comma,
}

static WORDS: [(&str, Word); 76] = [
    ("help", Word::Help),
    ("echo", Word::Echo),
    ("sheet", Word::Sheet),
    ("end", Word::End),
    ("fresh", Word::Fresh),
    ("open", Word::Open),
    ("blank", Word::Blank),
    ("take", Word::Take),
    ("function", Word::Function),
    ("A", Word::A),
    ("B", Word::B),
    ("edition", Word::Edition),
    ("captured", Word::Captured),
    ("forgotten", Word::Forgotten),
    ("ordinary", Word::Ordinary),
    ("trusted", Word::Trusted),
    ("ordinary-rules", Word::OrdinaryRules),
    ("trusted-rules", Word::TrustedRules),
    ("ordinary-marks", Word::OrdinaryMarks),
    ("trusted-marks", Word::TrustedMarks),
    ("chain", Word::Chain),
    ("ports", Word::Ports),
    ("records", Word::Records),
    ("record", Word::Record),
    ("structures", Word::Structures),
    ("more", Word::More),
    ("proposal", Word::Proposal),
    ("move", Word::Move),
    ("sizes", Word::Sizes),
    ("room", Word::Room),
    ("show", Word::Show),
    ("packet", Word::Packet),
    ("reset", Word::Reset),
    ("merge", Word::Merge),
    ("walk", Word::Walk),
    ("dvsec", Word::Dvsec),
    ("dual", Word::Dual),
    ("route", Word::Route),
    ("ask", Word::Ask),
    ("completion", Word::Completion),
    ("multicast", Word::Multicast),
    ("keep", Word::Keep),
    ("judge", Word::Judge),
    ("plan", Word::Plan),
    ("accept", Word::Accept),
    ("write", Word::Write),
    ("number", Word::Number),
    ("reply", Word::Reply),
    ("bytes", Word::Bytes),
    ("offsets", Word::Offsets),
    ("steps", Word::Steps),
    ("place", Word::Place),
    ("header", Word::Header),
    ("body", Word::Body),
    ("alternate", Word::Alternate),
    ("port", Word::Port),
    ("leaves", Word::Leaves),
    ("writes", Word::Writes),
    ("completer", Word::Completer),
    ("requester", Word::Requester),
    ("tag", Word::Tag),
    ("shown", Word::Shown),
    ("done", Word::Done),
    ("unsupported", Word::Unsupported),
    ("fields", Word::Fields),
    ("group", Word::Group),
    ("leaves-by", Word::LeavesBy),
    ("dropped", Word::Dropped),
    ("no-hit", Word::NoHit),
    ("headers", Word::Headers),
    ("alike", Word::Alike),
    ("compatible", Word::Compatible),
    ("extended", Word::Extended),
    ("primary", Word::Primary),
    ("->", Word::Arrow),
    (",", Word::Comma),
];

impl Word {
    // The word that a text is, if it is one.
    pub fn of(text: &[u8]) -> Option<Word> {
        WORDS
            .iter()
            .find(|(name, _)| name.as_bytes() == text)
            .map(|(_, word)| *word)
    }

    // Whether a line may begin with it.
    pub fn is_statement(self) -> bool {
        match self {
            Word::Help | Word::Echo | Word::Sheet | Word::End => true,
            Word::Fresh | Word::Open | Word::Blank | Word::Take => true,
            Word::Function | Word::A | Word::B | Word::Edition => true,
            Word::Captured | Word::Forgotten => true,
            Word::Ordinary | Word::OrdinaryRules | Word::OrdinaryMarks => true,
            Word::Trusted | Word::TrustedRules | Word::TrustedMarks => true,
            Word::Chain | Word::Ports | Word::Records | Word::Record => true,
            Word::Structures | Word::More | Word::Proposal | Word::Move => true,
            Word::Sizes | Word::Room | Word::Show => true,
            _ => self.is_question(),
        }
    }

    // Whether it is a statement that has an answer, which may be expected.
    pub fn is_question(self) -> bool {
        match self {
            Word::Packet | Word::Reset | Word::Merge | Word::Walk => true,
            Word::Dvsec | Word::Dual | Word::Route | Word::Ask => true,
            Word::Completion | Word::Multicast | Word::Keep | Word::Judge => true,
            Word::Plan | Word::Accept | Word::Write => true,
            _ => false,
        }
    }

    // Whether it parts clauses.
    pub fn is_mark(self) -> bool {
        match self {
            Word::Arrow | Word::Comma => true,
            _ => false,
        }
    }
}

impl Display for Word {
    fn fmt<W: fmt::Write>(&self, f: &mut Formatter<W>) -> fmt::Result {
        match WORDS.iter().find(|(_, word)| *word == *self) {
            Some((name, _)) => write!(f, "{name}"),
            None => Ok(()),
        }
    }
}
