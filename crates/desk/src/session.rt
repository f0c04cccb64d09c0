// A session at the desk: standard input line by line, each line answered as soon as it is there, in bounded memory. The last line tells
// how many checks there were, how many of them were as expected, and how many lines were not understood.
use crate::bench::Bench;
use crate::desks::Desk;
use crate::faults::Wrong;
use crate::input::{self, PIECE, Reading};
use crate::saying::Plain;
use crate::tokens::{self, MOST, Token, Tokens};
use crate::{doing, grammar, say};
use std::io::Stdin;

// A line is understood and done, or what is wrong with it is told.
fn take(bench: &mut Bench, line: &[u8]) {
    let mut room = [Token::NONE; MOST];
    bench.desk.line = bench.desk.line.wrapping_add(1);
    echo(&bench.desk, line);
    let taken = match tokens::read(line, &mut room) {
        _ if line.contains(&b'\r') => Err(Wrong::Return),
        None => Err(Wrong::TooManyTokens),
        Some(tokens) => take_tokens(bench, line, tokens),
    };
    if let Err(wrong) = taken {
        tell_wrong(bench, wrong);
    }
}

fn echo(desk: &Desk, line: &[u8]) {
    let text = Plain(line);
    if desk.echo {
        say!("> {text}\n");
    }
}

// The line says something, and each token is where it may be.
fn take_tokens(bench: &mut Bench, line: &[u8], tokens: Tokens) -> Result<(), Wrong> {
    if tokens.count() == 0 {
        return Ok(());
    }
    if let Err(fault) = grammar::check(tokens) {
        bench
            .desk
            .tell_misfit(line, tokens.begin(fault.place), fault.what);
        bench.lend_all();
        return Ok(());
    }
    doing::perform(bench, tokens)
}

fn tell_wrong(bench: &mut Bench, wrong: Wrong) {
    bench.desk.tell_wrong(wrong);
    bench.lend_all();
}

// A whole line, or the end of one whose beginning was given up.
fn take_whole(bench: &mut Bench, reading: &mut Reading, line: &[u8]) {
    if reading.skipping {
        reading.skipping = false;
        bench.desk.line = bench.desk.line.wrapping_add(1);
        tell_wrong(bench, Wrong::TooLong);
    } else {
        take(bench, line.strip_suffix(b"\r").unwrap_or(line));
    }
}

// Takes the lines that stand whole, and answers how many bytes stand behind them.
fn take_lines(bench: &mut Bench, reading: &mut Reading, lines: &[u8]) -> usize {
    for line in lines.split_inclusive(|byte| *byte == b'\n') {
        match line.strip_suffix(b"\n") {
            Some(whole) => take_whole(bench, reading, whole),
            None => return line.len(),
        }
    }
    0
}

// More of the input is read, and the lines in it are taken. Says whether there was more.
fn go_on(
    bench: &mut Bench,
    reading: &mut Reading,
    piece: &mut [u8; PIECE],
    stdin: &mut Stdin,
) -> bool {
    let rest = reading.rest;
    let end = input::read_more(reading, piece, stdin);
    if end <= rest {
        return false;
    }
    let left = take_lines(bench, reading, piece.get(..end).unwrap_or(&[]));
    input::keep_rest(piece, end, left);
    reading.give_up(left);
    true
}

// A line without a line end, where the input ends; what an input that could not be read breaks off is no line.
fn take_last(bench: &mut Bench, reading: &mut Reading, piece: &[u8]) {
    let line = piece.get(..reading.rest).unwrap_or(&[]);
    if !reading.is_between() && !reading.unread {
        take_whole(bench, reading, line);
    }
}

// The whole input. A proved loop has to end, and nothing says that the input does: so the turns are counted, up to a number that no
// session reaches.
pub fn run(bench: &mut Bench, piece: &mut [u8; PIECE], stdin: &mut Stdin) {
    let mut reading = Reading::of(stdin);
    for _ in 0..u64::MAX {
        prompt(reading);
        if !go_on(bench, &mut reading, piece, stdin) {
            break;
        }
    }
    if reading.typed {
        say!("\n");
    }
    take_last(bench, &mut reading, piece);
    tell_end(bench, reading);
}

// Who types is asked for each line.
fn prompt(reading: Reading) {
    if reading.typed && reading.is_between() {
        say!("> ");
    }
}

// What is wrong at the end, and the tally.
fn tell_end(bench: &mut Bench, reading: Reading) {
    if reading.unread {
        tell_wrong(bench, Wrong::Unread);
    }
    if bench.desk.sheet {
        tell_wrong(bench, Wrong::NoEnd);
    }
    bench.desk.tally();
}
