// A line that was understood is done.
use crate::bench::{Bench, MOST_RECORDS};
use crate::boards::{Address, Board, Role};
use crate::faults::Wrong;
use crate::list::List;
use crate::spaces::{self, Part};
use crate::tokens::Tokens;
use crate::vocabulary::Word;
use crate::{
    capabilities, chaining, completions, helping, keeping, laying, packets, planning, reading,
    requests, routing, say, structures, verdicts, walking,
};
use multicast::Record;
use ports::Port;

// The bytes that stand in a fresh board's spaces.
const ORDINARY: u8 = 0x51;

const TRUSTED: u8 = 0x72;

// What a statement sets is done where it says so.
pub fn perform(bench: &mut Bench, tokens: Tokens) -> Result<(), Wrong> {
    let Some(word) = tokens.word(0) else {
        return Ok(());
    };
    match word {
        Word::Help => helping::help(),
        Word::Echo => bench.desk.echo = true,
        Word::Show => show(&bench.board, tokens),
        _ if word.is_question() => ask(bench, word, tokens)?,
        _ => {
            set(bench, word, tokens)?;
            say!("ok\n");
        }
    }
    Ok(())
}

fn show(board: &Board, tokens: Tokens) {
    if let Some(part) = tokens.word(1).and_then(|name| Part::of(name)) {
        board
            .at_hand()
            .buffer(part)
            .show(tokens.number(2), tokens.number(3));
    }
}

fn set(bench: &mut Bench, word: Word, tokens: Tokens) -> Result<(), Wrong> {
    match word {
        Word::Sheet if bench.desk.sheet => return Err(Wrong::SheetAgain),
        Word::End if !bench.desk.sheet => return Err(Wrong::NoSheet),
        Word::Sheet | Word::End => bench.desk.sheet = word == Word::Sheet,
        Word::Fresh => begin_board(bench, ORDINARY, TRUSTED, 0),
        Word::Open => begin_board(bench, ORDINARY, TRUSTED, 0xff),
        Word::Blank => begin_board(bench, 0, 0, 0),
        Word::Chain => chaining::put_chain(bench.board.at_hand_mut(), tokens)?,
        Word::Room => bench.desk.room = tokens.number(1),
        Word::Ports | Word::Records | Word::Record => set_switch(bench, word, tokens.from(1))?,
        Word::Structures | Word::More | Word::Proposal | Word::Move => set_design(
            bench,
            word,
            tokens.from(1),
        )?,
        _ => set_board(&mut bench.board, word, tokens),
    }
    Ok(())
}

fn begin_board(bench: &mut Bench, ordinary: u8, trusted: u8, rule: u8) {
    bench.board = Board::new(ordinary, trusted, rule);
    bench.lend_all();
}

fn set_board(board: &mut Board, word: Word, tokens: Tokens) {
    let numbers = tokens.from(1);
    let function = board.at_hand_mut();
    match word {
        Word::Take if tokens.is(1, Word::Alternate) => board.take(Role::Alternate),
        Word::Take => board.take(Role::Primary),
        Word::Edition => board.edition = numbers.number(0),
        Word::Function => function.number = numbers.byte(0),
        Word::A => function.a = numbers.number(0),
        Word::B => function.b = numbers.number(0),
        Word::Captured => {
            function.captured = Some(Address {
                bus: numbers.byte(0),
                device: numbers.byte(1),
            });
        }
        Word::Forgotten => function.captured = None,
        Word::Sizes => function.lend(sizes_of(numbers)),
        _ => {
            if let Some(part) = Part::of(word) {
                spaces::put(board, part, numbers);
            }
        }
    }
}

fn sizes_of(numbers: Tokens) -> [usize; 6] {
    [
        numbers.number(0),
        numbers.number(1),
        numbers.number(2),
        numbers.number(3),
        numbers.number(4),
        numbers.number(5),
    ]
}

fn set_switch(bench: &mut Bench, word: Word, numbers: Tokens) -> Result<(), Wrong> {
    match word {
        Word::Ports => put_ports(bench, numbers),
        Word::Records => bench.records = List::alike(
            Record::default(),
            numbers.number(0).min(MOST_RECORDS),
        ),
        _ => {
            if !bench
                .records
                .set(numbers.number(0), keeping::record_of(numbers.from(1)))
            {
                return Err(Wrong::NoRecord);
            }
        }
    }
    Ok(())
}

// A list of ports in the place of the last one: all numbers of the line, three for each.
fn put_ports(bench: &mut Bench, numbers: Tokens) {
    let mut place = 0;
    bench.ports.clear();
    for _ in 0..numbers.count() / 3 {
        bench.ports.push(port_at(numbers.from(place)));
        place = place.wrapping_add(3);
    }
}

fn port_at(numbers: Tokens) -> Port {
    Port {
        secondary: numbers.byte(0),
        subordinate: numbers.byte(1),
        tcs: numbers.byte(2),
    }
}

fn set_design(bench: &mut Bench, word: Word, numbers: Tokens) -> Result<(), Wrong> {
    match word {
        Word::Structures => structures::put(&mut bench.structures, numbers),
        Word::More => structures::put_more(&mut bench.structures, numbers)?,
        Word::Proposal => bench.proposal = structures::propose(numbers),
        _ => structures::propose_one(&mut bench.proposal, numbers)?,
    }
    Ok(())
}

// While a question is asked, the function that it names is at hand. It is lent what was said before it, and the next one everything again.
fn ask(bench: &mut Bench, question: Word, tokens: Tokens) -> Result<(), Wrong> {
    let role = bench.board.at_hand;
    bench.board.at_hand = bench.board.named(question, tokens);
    let right = put_question(bench, question, tokens);
    bench.board.at_hand = role;
    bench.desk.count(tokens.is_check(), right?);
    bench.lend_all();
    Ok(())
}

// Says whether it is a check that was right.
fn put_question(bench: &mut Bench, question: Word, tokens: Tokens) -> Result<bool, Wrong> {
    match question {
        Word::Packet => Ok(packets::ask(bench, tokens)),
        Word::Ask => Ok(requests::ask(bench, tokens)),
        Word::Reset => Ok(packets::reset(bench, tokens)),
        Word::Route => Ok(routing::ask(bench, tokens)),
        Word::Completion => Ok(completions::ask(bench, tokens)),
        Word::Keep => keep(bench, tokens),
        Word::Write => laying::ask(bench, tokens, Part::asked(tokens)),
        Word::Plan => {
            let list = bench.structures.items();
            Ok(planning::plan(&bench.desk, tokens, list, &mut bench.proposal))
        }
        _ => Ok(look(bench, question, tokens)),
    }
}

// What is to be kept wants a place first.
fn keep(bench: &mut Bench, tokens: Tokens) -> Result<bool, Wrong> {
    let space = bench.board.at_hand().buffer(Part::asked(tokens)).lent();
    if bench.records.items().len() <= tokens.number(3) {
        return Err(Wrong::NoRecord);
    }
    Ok(capabilities::keep(&bench.desk, tokens, space, &mut bench.records))
}

// A question that leaves all as it is.
fn look(bench: &Bench, question: Word, tokens: Tokens) -> bool {
    let desk = &bench.desk;
    let space = bench.board.at_hand().buffer(Part::asked(tokens)).lent();
    match question {
        Word::Merge => packets::merge(desk, tokens),
        Word::Judge => verdicts::ask(desk, tokens, bench.records.items()),
        Word::Accept => planning::accept(
            desk,
            tokens,
            bench.structures.items(),
            bench.proposal.items(),
        ),
        Word::Walk => walking::ask(desk, tokens, space),
        Word::Dvsec => reading::ask_dvsec(desk, tokens, space),
        Word::Dual => reading::ask_dual(desk, tokens, space),
        _ => capabilities::ask(desk, tokens, space),
    }
}
