// The headers of the proposal at the desk are written into a space of its board. The number and the extended list there are told, as the listing shows it,
// with every word that is another; or each byte is held against what is expected.
use crate::bench::Bench;
use crate::boards::Board;
use crate::faults::Wrong;
use crate::spaces::{self, Buffer, Part};
use crate::tokens::Tokens;
use crate::vocabulary::Word;
use crate::{chaining, judging, planning, say, unlaid, walking};
use answers::Refusal;

// The last offset of a header, and the highest version.
const LAST: usize = 0xffc;

const HIGHEST: usize = 0xf;

// Says whether this is a check that was right. Headers that are expected fit into a space.
pub fn ask(bench: &mut Bench, tokens: Tokens, part: Part) -> Result<bool, Wrong> {
    let before = bench.board;
    let mut wanted = before;
    put_expected(wanted.at_hand_mut().buffer_mut(part), tokens)?;
    let answer = write(bench, part);
    if tokens.is_check() && judge(bench, tokens, answer, &wanted) {
        return Ok(true);
    }
    planning::put_number(answer, "written");
    tell(bench, answer, part);
    spaces::tell_changes(&before, &bench.board);
    Ok(false)
}

// The writer is lent a space of the board, as far as the desk says.
fn write(bench: &mut Bench, part: Part) -> Result<(), Refusal> {
    let space = bench.board.at_hand_mut().buffer_mut(part).lent_mut();
    layout::write(bench.structures.items(), bench.proposal.items(), space)
}

// The number, and every byte.
fn judge(bench: &Bench, tokens: Tokens, answer: Result<(), Refusal>, wanted: &Board) -> bool {
    let answered = judging::number(&bench.desk, tokens, answers::number(&answer));
    answered & spaces::judge(&bench.desk, &bench.board, wanted)
}

// A space of another size comes before the structures.
fn tell(bench: &Bench, answer: Result<(), Refusal>, part: Part) {
    let space = bench.board.at_hand().buffer(part).lent();
    let size = space.len();
    match answer {
        Ok(()) => walking::tell_listing(space),
        Err(_) if size != words::SPACE => say!("  the space has {size:X} bytes\n"),
        Err(refusal) => unlaid::tell(refusal, bench.structures.items(), bench.proposal.items(), 0),
    }
}

// Headers as they are expected: each with its offset, ID and version, or so many that are alike, the first at an offset and each other at the one before it
// with a step added.
#[derive(Clone, Copy)]
enum Headers<'a> {
    Listed(Tokens<'a>),
    Alike(Tokens<'a>),
}

impl Headers<'_> {
    fn count(self) -> usize {
        match self {
            Headers::Listed(numbers) => numbers.count() / 3,
            Headers::Alike(numbers) => numbers.number(0),
        }
    }

    // Where a header stands: the last points to 0.
    fn offset(self, header: usize) -> usize {
        match self {
            _ if self.count() <= header => 0,
            Headers::Listed(numbers) => numbers.number(header.wrapping_mul(3)),
            Headers::Alike(numbers) => numbers
                .number(1)
                .wrapping_add(header.wrapping_mul(numbers.number(2))),
        }
    }

    fn id_and_version(self, header: usize) -> (usize, usize) {
        let (numbers, place) = match self {
            Headers::Listed(numbers) => (numbers, header.wrapping_mul(3).wrapping_add(1)),
            Headers::Alike(numbers) => (numbers, 3),
        };
        (numbers.number(place), numbers.number(place.wrapping_add(1)))
    }
}

// Puts the headers that a line expects, if all fit into a space.
fn put_expected(space: &mut Buffer, tokens: Tokens) -> Result<(), Wrong> {
    let headers = if tokens.expects(Word::Headers) {
        Headers::Listed(tokens.expected(Word::Headers))
    } else {
        Headers::Alike(tokens.expected(Word::Alike))
    };
    for header in 0..headers.count() {
        put_header(space, headers, header)?;
    }
    Ok(())
}

// Each points to the next, and the last to 0.
fn put_header(space: &mut Buffer, headers: Headers, header: usize) -> Result<(), Wrong> {
    let offset = headers.offset(header);
    let (id, version) = headers.id_and_version(header);
    if LAST < offset || HIGHEST < version {
        return Err(Wrong::NoHeader);
    }
    let next = headers.offset(header.wrapping_add(1));
    chaining::put_long(space, offset, id, version, next);
    Ok(())
}
