// The piece of the input that is in memory: read after what is left of the piece before.
ghost use Rattle.std.specs.Prelude.{◌≤◌, length};

use std::io::{IsTerminal, Read, Stdin};

// What is read at once; a line is shorter.
pub const PIECE: usize = 4000;

// How far the input is read.
#[derive(Clone, Copy)]
pub struct Reading {
    // How many bytes of a line that is not whole yet the piece begins with.
    pub rest: usize,
    // The rest of a line that is too long is being read past.
    pub skipping: bool,
    // The input could not be read to its end.
    pub unread: bool,
    // Somebody types, and is asked for each line.
    pub typed: bool,
}

impl Reading {
    pub fn of(stdin: &Stdin) -> Reading {
        Reading {
            rest: 0,
            skipping: false,
            unread: false,
            typed: stdin.is_terminal(),
        }
    }

    // What is left of a line, `rest` bytes of it: given up where it fills the piece.
    pub fn give_up(&mut self, rest: usize) {
        if rest < PIECE {
            self.rest = rest;
        } else {
            self.rest = 0;
            self.skipping = true;
        }
    }

    // Whether the last line that was read is whole.
    pub fn is_between(self) -> bool {
        !self.skipping && self.rest == 0
    }
}

// Reads more, after the bytes that the piece begins with, and answers where it ends now: not past those where nothing came. Notes
// where that is because the input could not be read.
pub fn read_more(reading: &mut Reading, piece: &mut [u8], stdin: &mut Stdin) -> usize
    ensures { result ≤ length piece.new }
{
    let rest = reading.rest;
    if piece.len() <= rest {
        return 0;
    }
    match stdin.read(&mut piece[rest..]) {
        Ok(got) => rest + got,
        Err(_) => {
            reading.unread = true;
            rest
        }
    }
}

// Moves the last bytes before `end`, so many of them, to the front.
pub fn keep_rest(piece: &mut [u8], end: usize, rest: usize) {
    let from = end.saturating_sub(rest).min(piece.len());
    piece.rotate_left(from);
}
