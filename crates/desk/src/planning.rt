// Offsets are proposed for the structures of a new board, and a proposal is looked at: the number is told, with what is proposed or why nothing is, or held
// against what is expected.
use crate::desks::Desk;
use crate::list::List;
use crate::structures::Proposal;
use crate::tokens::Tokens;
use crate::walking::{self, ROOM, UNTOUCHED};
use crate::{explaining, judging, say, unlaid};
use answers::Refusal;
use layout::Structure;

// A proposal is kept. Says whether this is a check that was right.
pub fn plan(desk: &Desk, tokens: Tokens, list: &[Structure], proposal: &mut Proposal) -> bool {
    let mut room = [UNTOUCHED; ROOM];
    let lent = desk.room.min(ROOM);
    let answer = layout::plan(list, &mut room[..lent]);
    let count = if answer.is_ok() { list.len() } else { 0 };
    if answer.is_ok() {
        *proposal = List::of(room, count);
    }
    if tokens.is_check() {
        let answered = judging::number(desk, tokens, answers::number(&answer));
        if answered & walking::judge_room(desk, tokens, count, &room) {
            return true;
        }
    }
    put_number(answer, "a proposal, which is kept");
    match answer {
        Ok(()) => tell_placed(list, &room),
        Err(refusal) => unlaid::tell(refusal, list, &[], lent),
    }
    false
}

// A number, and what it means of a question about a new board, with the meaning of a 0.
pub fn put_number(answer: Result<(), Refusal>, done: &str) {
    let meaning = match answer {
        Ok(()) => done,
        Err(Refusal::BadDescription) =>
            "badly described: no structure or more than 3C0; one with ID 0, a version over F, or a length under 4 or over F00; or a space of another size than 1000",
        Err(Refusal::NoRoom) =>
            "no room: the list room has fewer entries than there are structures",
        Err(refusal) => explaining::meaning_of(refusal),
    };
    explaining::put_number(answers::number(&answer), meaning);
}

// Each structure at its offset.
fn tell_placed(list: &[Structure], room: &[u16]) {
    for (structure, offset) in list.iter().zip(room) {
        let offset = *offset;
        let id = structure.id;
        let version = structure.version;
        let length = structure.length;
        say!("  {offset:03X}: ID {id:04X} version {version:X} length {length:X}\n");
    }
}

// The proposal that is kept is looked at. Says whether this is a check that was right.
pub fn accept(desk: &Desk, tokens: Tokens, list: &[Structure], proposed: &[u16]) -> bool {
    let answer = layout::check(list, proposed);
    if tokens.is_check() && judging::number(desk, tokens, answers::number(&answer)) {
        return true;
    }
    put_number(answer, "accepted");
    if let Err(refusal) = answer {
        unlaid::tell(refusal, list, proposed, 0);
    }
    false
}
