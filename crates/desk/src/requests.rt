// A request is written from its parts, and the board at the desk is sent it. What was written is told, with all that is told of a packet and what
// is read back in the reply; or it is held against what is expected, with all that is expected of a packet.
use crate::bench::{Bench, PACKET, REPLY, UNWRITTEN};
use crate::boards::Board;
use crate::list::List;
use crate::packets::{self, Outcome};
use crate::saying::Bytes;
use crate::tokens::Tokens;
use crate::vocabulary::Word;
use crate::{completions, explaining, judging, say};
use asking::Parts;
use packet::Id;

// The bytes of the buffer for a request, more than any has.
const REQUEST: usize = 20;

// Where the data stands in a line that has some.
const DATA: usize = 10;

// The request becomes the packet that is sent. Says whether this is a check that was right.
pub fn ask(bench: &mut Bench, tokens: Tokens) -> bool {
    bench.reply = [UNWRITTEN; REPLY];
    let before = bench.board;
    let outcome = send(bench, tokens);
    let right = answer(bench, tokens, outcome, &before);
    bench.board.keep(outcome.kept);
    right
}

// What is written is sent. What is refused is not, and it has no bytes. The room that was lent is the request's: the reply to it has all of its own.
fn send(bench: &mut Bench, tokens: Tokens) -> Outcome {
    let mut buffer = [UNWRITTEN; PACKET];
    let room = bench.desk.room.min(REQUEST);
    let written = asking::write_request(parts_of(tokens), data_of(tokens), &mut buffer[..room]);
    bench.desk.room = usize::MAX;
    bench.packet = List::of(buffer, written.unwrap_or(0));
    match written {
        Ok(_) => packets::send(bench),
        Err(refusal) => Outcome {
            answer: Err(refusal),
            kept: bench.board.kept(),
        },
    }
}

fn parts_of(tokens: Tokens) -> Parts {
    Parts {
        kind: tokens.byte(1),
        requester: Id {
            high: tokens.byte(2),
            low: tokens.byte(3),
        },
        tag: tokens.byte(4),
        bus: tokens.byte(5),
        device: tokens.byte(6),
        function: tokens.byte(7),
        offset: tokens.number(8),
        enables: tokens.byte(9),
    }
}

// Data that is not given, as for a read, is 00.
fn data_of(tokens: Tokens) -> [u8; 4] {
    if tokens.numbers_from(1).count() < DATA {
        return [0; 4];
    }
    tokens.four(DATA)
}

// As in `packets`, with the judge and the words of this question.
fn answer(bench: &Bench, tokens: Tokens, outcome: Outcome, before: &Board) -> bool {
    if tokens.is_check() && judge(bench, tokens, outcome, before) {
        return true;
    }
    tell(bench, outcome, before);
    false
}

fn judge(bench: &Bench, tokens: Tokens, outcome: Outcome, before: &Board) -> bool {
    let written = judge_written(bench, tokens);
    written & packets::judge(bench, tokens, outcome, before)
}

// The request's bytes at the front of its buffer, and the rest untouched.
fn judge_written(bench: &Bench, tokens: Tokens) -> bool {
    let numbers = tokens.expected(Word::Writes);
    let mut wanted = [UNWRITTEN; PACKET];
    numbers.fill(&mut wanted);
    judging::value(
        &bench.desk,
        "request's length",
        bench.packet.items().len(),
        numbers.count(),
    ) && judging::bytes(&bench.desk, "request byte", bench.packet.whole(), &wanted)
}

// What was written, what became of it, and what is read back; or why nothing was written.
fn tell(bench: &Bench, outcome: Outcome, before: &Board) {
    match outcome.answer {
        Err(refusal) if bench.packet.items().is_empty() => explaining::put_asking_refusal(refusal),
        _ => {
            let request = Bytes(bench.packet.items());
            say!("writes:{request}\n");
            packets::tell(bench, outcome, before);
            completions::tell_reply(bench.reply.get(..outcome.length()).unwrap_or(&[]));
        }
    }
}
