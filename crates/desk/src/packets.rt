// A packet is served by the board at the desk. Everything afterwards is told, or held against what is expected: the number, the reply
// with the rest of its buffer, the capture, and every byte of both spaces; and of a board of two functions, that the one that the packet does not name is as
// it was. Resets and merges are asked for in the same way.
use crate::bench::{Bench, PACKET, REPLY, UNWRITTEN};
use crate::boards::{Address, Board, Function, Kept};
use crate::desks::Desk;
use crate::explaining::{self, Captured};
use crate::list::List;
use crate::saying::Bytes;
use crate::tokens::Tokens;
use crate::vocabulary::Word;
use crate::{judging, say, spaces};
use answers::Refusal;
use board::Description;
use capture::Capture;
use pair::{Captures, Side};

// What became of a packet: how many bytes of the reply are written, or why none is; and what is captured then.
#[derive(Clone, Copy)]
pub struct Outcome {
    pub answer: Result<usize, Refusal>,
    pub kept: Kept,
}

impl Outcome {
    // How many bytes the reply has.
    pub fn length(self) -> usize {
        self.answer.unwrap_or(0)
    }
}

// Says, as every question here, whether it is a check that was right.
pub fn ask(bench: &mut Bench, tokens: Tokens) -> bool {
    take_bytes(bench, tokens);
    bench.reply = [UNWRITTEN; REPLY];
    let before = bench.board;
    let outcome = send(bench);
    let right = answer(bench, tokens, outcome, &before);
    bench.board.keep(outcome.kept);
    right
}

// The bytes behind a question's word are sent: a packet, or a completion.
pub fn take_bytes(bench: &mut Bench, tokens: Tokens) {
    let numbers = tokens.numbers_from(1);
    let mut bytes = [UNWRITTEN; PACKET];
    numbers.fill(&mut bytes);
    bench.packet = List::of(bytes, numbers.count());
}

// The board is lent its buffers, each as far as the desk says.
pub fn send(bench: &mut Bench) -> Outcome {
    let packet = bench.packet;
    let room = bench.desk.room.min(REPLY);
    let mut reply = bench.reply;
    let outcome = if bench.board.is_pair {
        serve_both(&mut bench.board, packet.items(), &mut reply[..room])
    } else {
        serve(&mut bench.board, packet.items(), &mut reply[..room])
    };
    bench.reply = reply;
    outcome
}

// The bytes are lent as copies: that fields are lent side by side behind a `&mut` is not covered by the proofs.
fn serve(board: &mut Board, packet: &[u8], reply: &mut [u8]) -> Outcome {
    let mut ordinary = board.primary.ordinary.bytes;
    let mut trusted = board.primary.trusted.bytes;
    let outcome = serve_lent(
        board,
        ordinary.lent_mut(),
        trusted.lent_mut(),
        packet,
        reply,
    );
    board.primary.ordinary.bytes = ordinary;
    board.primary.trusted.bytes = trusted;
    outcome
}

// Beside a function that is alone nothing is captured.
fn serve_lent(
    board: &Board,
    ordinary: &mut [u8],
    trusted: &mut [u8],
    packet: &[u8],
    reply: &mut [u8],
) -> Outcome {
    let one = &board.primary;
    let mut lent = board::Board {
        description: describe(one, board.edition()),
        capture: one.capture(),
        ordinary,
        ordinary_rules: one.ordinary.rules.lent(),
        ordinary_marks: one.ordinary.marks.lent(),
        trusted,
        trusted_rules: one.trusted.rules.lent(),
        trusted_marks: one.trusted.marks.lent(),
    };
    let answer = lent.serve(packet, reply);
    let kept = Kept::of(lent.capture, Capture::Nothing);
    Outcome { answer, kept }
}

fn serve_both(board: &mut Board, packet: &[u8], reply: &mut [u8]) -> Outcome {
    let mut primary_ordinary = board.primary.ordinary.bytes;
    let mut primary_trusted = board.primary.trusted.bytes;
    let mut alternate_ordinary = board.alternate.ordinary.bytes;
    let mut alternate_trusted = board.alternate.trusted.bytes;
    let outcome = serve_lent_both(
        board,
        primary_ordinary.lent_mut(),
        primary_trusted.lent_mut(),
        alternate_ordinary.lent_mut(),
        alternate_trusted.lent_mut(),
        packet,
        reply,
    );
    board.primary.ordinary.bytes = primary_ordinary;
    board.primary.trusted.bytes = primary_trusted;
    board.alternate.ordinary.bytes = alternate_ordinary;
    board.alternate.trusted.bytes = alternate_trusted;
    outcome
}

fn serve_lent_both(
    board: &Board,
    primary_ordinary: &mut [u8],
    primary_trusted: &mut [u8],
    alternate_ordinary: &mut [u8],
    alternate_trusted: &mut [u8],
    packet: &[u8],
    reply: &mut [u8],
) -> Outcome {
    let one = &board.primary;
    let other = &board.alternate;
    let mut primary = Side {
        function: function_of(one),
        capture: one.capture(),
        ordinary: primary_ordinary,
        ordinary_rules: one.ordinary.rules.lent(),
        ordinary_marks: one.ordinary.marks.lent(),
        trusted: primary_trusted,
        trusted_rules: one.trusted.rules.lent(),
        trusted_marks: one.trusted.marks.lent(),
    };
    let mut alternate = Side {
        function: function_of(other),
        capture: other.capture(),
        ordinary: alternate_ordinary,
        ordinary_rules: other.ordinary.rules.lent(),
        ordinary_marks: other.ordinary.marks.lent(),
        trusted: alternate_trusted,
        trusted_rules: other.trusted.rules.lent(),
        trusted_marks: other.trusted.marks.lent(),
    };
    let answer = pair::serve(board.edition(), &mut primary, &mut alternate, packet, reply);
    let kept = Kept::of(primary.capture, alternate.capture);
    Outcome { answer, kept }
}

fn function_of(function: &Function) -> pair::Function {
    pair::Function {
        number: function.number,
        a: function.a,
        b: function.b,
    }
}

pub fn describe(function: &Function, edition: u32) -> Description {
    Description {
        function: function.number,
        a: function.a,
        b: function.b,
        edition,
    }
}

fn answer(bench: &Bench, tokens: Tokens, outcome: Outcome, before: &Board) -> bool {
    if tokens.is_check() && judge(bench, tokens, outcome, before) {
        return true;
    }
    tell(bench, outcome, before);
    false
}

// What became of the packet, and every byte that is another.
pub fn tell(bench: &Bench, outcome: Outcome, before: &Board) {
    explaining::packet(bench, outcome);
    spaces::tell_changes(before, &bench.board);
}

// The answer, and every byte.
pub fn judge(bench: &Bench, tokens: Tokens, outcome: Outcome, before: &Board) -> bool {
    let answered = judge_answer(bench, tokens, outcome);
    let wanted = spaces::wanted(before, tokens);
    answered & spaces::judge(&bench.desk, &bench.board, &wanted)
}

fn judge_answer(bench: &Bench, tokens: Tokens, outcome: Outcome) -> bool {
    let board = &bench.board;
    let number = judging::number(&bench.desk, tokens, answers::number(&outcome.answer));
    let reply = judge_reply(bench, tokens, outcome.length());
    let wanted = board
        .kept()
        .with(board.at_hand, wanted_capture(board, tokens));
    number & reply & judge_captures(&bench.desk, board, outcome.kept, wanted)
}

// The reply's bytes at the front of its buffer, and the rest untouched.
fn judge_reply(bench: &Bench, tokens: Tokens, length: usize) -> bool {
    let numbers = tokens.expected(Word::Reply);
    let mut wanted = [UNWRITTEN; REPLY];
    numbers.fill(&mut wanted);
    judging::value(&bench.desk, "reply's length", length, numbers.count())
        && judging::bytes(&bench.desk, "reply byte", &bench.reply, &wanted)
}

// The captures that are expected.
fn judge_captures(desk: &Desk, board: &Board, found: Kept, wanted: Kept) -> bool {
    if found == wanted {
        return true;
    }
    let found = Captured::of(board, found);
    let wanted = Captured::of(board, wanted);
    desk.begin_difference();
    say!("captured {found}, expected {wanted}\n");
    false
}

// The capture that is told, or the one from before.
fn wanted_capture(board: &Board, tokens: Tokens) -> Option<Address> {
    if tokens.expects(Word::Captured) {
        let numbers = tokens.expected(Word::Captured);
        return Some(Address {
            bus: numbers.byte(0),
            device: numbers.byte(1),
        });
    }
    if tokens.expects(Word::Forgotten) {
        return None;
    }
    board.at_hand().captured
}

// A reset is asked for. What is expected of one function is expected of both.
pub fn reset(bench: &mut Bench, tokens: Tokens) -> bool {
    let captures = pair::reset(Captures {
        primary: bench.board.primary.capture(),
        alternate: bench.board.alternate.capture(),
    });
    let kept = Kept::of(captures.primary, captures.alternate);
    let right = answer_reset(bench, tokens, kept);
    bench.board.keep(kept);
    right
}

fn answer_reset(bench: &Bench, tokens: Tokens, kept: Kept) -> bool {
    let captured = wanted_capture(&bench.board, tokens);
    let wanted = Kept {
        primary: captured,
        alternate: captured,
    };
    if tokens.is_check() && judge_captures(&bench.desk, &bench.board, kept, wanted) {
        return true;
    }
    explaining::tell_captured(&bench.board, kept);
    false
}

// A merge is asked for: four old bytes, four rules, four marks, four data bytes, the enables.
pub fn merge(desk: &Desk, tokens: Tokens) -> bool {
    let found = registers::merge(
        tokens.four(1),
        tokens.four(5),
        tokens.four(9),
        tokens.four(13),
        tokens.byte(17),
    );
    let wanted = tokens.expected(Word::Bytes).four(0);
    if tokens.is_check()
        && judging::listed(
            desk,
            found == wanted,
            "bytes",
            Bytes(&found),
            Bytes(&wanted),
        )
    {
        return true;
    }
    let bytes = Bytes(&found);
    say!("  merged:{bytes}\n");
    false
}
