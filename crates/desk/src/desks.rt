// What the desk keeps from line to line beside the board and the switch.
use crate::faults::{Misfit, Wrong};
use crate::saying::Plain;
use crate::{say, tokens};

#[derive(Clone, Copy)]
pub struct Desk {
    // The line's number; how many statements had an expectation, and how many of them were right; how many lines were not understood.
    pub line: usize,
    pub checks: usize,
    pub right: usize,
    pub faults: usize,
    // Whether a sheet has begun and not ended; and whether lines are written out as they are read.
    pub sheet: bool,
    pub echo: bool,
    // How much of the reply, of what leaves, of what is written or of the list room is lent to the next question.
    pub room: usize,
}

impl Desk {
    pub fn new() -> Desk {
        Desk {
            line: 0,
            checks: 0,
            right: 0,
            faults: 0,
            sheet: false,
            echo: false,
            room: usize::MAX,
        }
    }

    // A question has been asked. Where it is a check, it is counted, and a word is said if it was right.
    pub fn count(&mut self, is_check: bool, right: bool) {
        if is_check {
            self.checks = self.checks.wrapping_add(1);
        }
        if right {
            self.right = self.right.wrapping_add(1);
            say!("as expected\n");
        }
    }

    // A line is not understood: from `from` on it does not fit.
    pub fn tell_misfit(&mut self, line: &[u8], from: Option<usize>, what: Misfit) {
        self.begin_fault();
        match from {
            Some(from) if from < line.len() => {
                let text = Plain(&line[from..tokens::end_of(line, from)]);
                say!("'{text}' {what}\n");
            }
            _ => say!("the line's end {what}\n"),
        }
    }

    // The same, of a line as a whole.
    pub fn tell_wrong(&mut self, what: Wrong) {
        self.begin_fault();
        say!("{what}\n");
    }

    fn begin_fault(&mut self) {
        self.faults = self.faults.wrapping_add(1);
        let line = self.line;
        say!("line {line}: ");
    }

    // Whoever tells a difference goes on behind this, and ends the line.
    pub fn begin_difference(&self) {
        let line = self.line;
        say!("line {line}: not as expected: ");
    }

    pub fn tally(&self) {
        let checks = self.checks;
        let right = self.right;
        let faults = self.faults;
        say!("checks {checks}, as expected {right}, lines not understood {faults}\n");
    }
}
