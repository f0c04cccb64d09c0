// A list of the board at the desk is walked. The number, the place, the count and every entry of the room are told, or held against what is
// expected. The compatible and the extended list lie in the ordinary space, the trusted list in the trusted one.
use crate::desks::Desk;
use crate::tokens::Tokens;
use crate::vocabulary::Word;
use crate::{explaining, judging, say};
use answers::Refusal;
use lists::{Kind, Refused};

// More entries than any list may have headers, and the entry that fills a room before a walk.
pub const ROOM: usize = 1030;

pub const UNTOUCHED: u16 = 0xeeee;

pub type Room = [u16; ROOM];

fn kind_asked(tokens: Tokens) -> Kind {
    match tokens.word(1) {
        Some(Word::Compatible) => Kind::Compatible,
        Some(Word::Extended) => Kind::Extended,
        _ => Kind::Trusted,
    }
}

// How many offsets are listed, or why none is.
type Walked = Result<usize, Refused>;

// A list is walked in the space where it lies. Says whether this is a check that was right.
pub fn ask(desk: &Desk, tokens: Tokens, space: &[u8]) -> bool {
    let mut room = [UNTOUCHED; ROOM];
    let kind = kind_asked(tokens);
    let size = desk.room.min(ROOM);
    let walked = lists::walk(kind, space, &mut room[..size]);
    if tokens.is_check() && judge(desk, tokens, walked, &room) {
        return true;
    }
    tell(kind, space, walked, &room);
    false
}

// The number; the place, which is 0 where it is not said; the room.
fn judge(desk: &Desk, tokens: Tokens, walked: Walked, room: &Room) -> bool {
    let (number, place, count) = match walked {
        Ok(count) => (0, 0, count),
        Err(refused) => (refused.refusal.number(), refused.place, 0),
    };
    let wanted = tokens.expected(Word::Place).number(0);
    let answered = judging::number(desk, tokens, number);
    let told = judging::value(desk, "place", place as usize, wanted);
    answered & told & judge_room(desk, tokens, count, room)
}

// So many offsets: those that are expected one by one, and then so many by steps; the rest of the room is untouched.
pub fn judge_room(desk: &Desk, tokens: Tokens, count: usize, room: &Room) -> bool {
    let mut wanted = [UNTOUCHED; ROOM];
    let offsets = tokens.expected(Word::Offsets);
    let steps = tokens.expected(Word::Steps);
    offsets.fill_offsets(&mut wanted);
    step(&mut wanted, steps);
    // No line has both.
    if judging::value(
        desk,
        "count",
        count,
        offsets.count().wrapping_add(steps.number(0)),
    ) {
        return judge_entries(desk, room, &wanted);
    }
    false
}

// Tells the first entry that is another. (As `judging::bytes`, but a byte is written with two digits, and an entry with four.)
fn judge_entries(desk: &Desk, room: &Room, wanted: &Room) -> bool {
    for (entry, (is, should)) in room.iter().zip(wanted).enumerate() {
        if is != should {
            desk.begin_difference();
            say!("room entry {entry:X} is {is:04X}, expected {should:04X}\n");
            return false;
        }
    }
    true
}

// So many offsets: the first, and each the one before it with a step added.
fn step(room: &mut Room, steps: Tokens) {
    let mut offset = steps.short(1);
    for entry in room.iter_mut().take(steps.number(0)) {
        *entry = offset;
        offset = offset.wrapping_add(steps.short(2));
    }
}

// The number; where it is 0 the headers that were listed, and where the list is broken the place.
fn tell(kind: Kind, space: &[u8], walked: Walked, room: &Room) {
    match walked {
        Ok(count) => {
            explaining::put_number(0, explaining::ANSWERED);
            say!("  listed: {count:X}\n");
            tell_headers(kind, space, room, count);
        }
        Err(refused) => {
            explaining::put_refusal(refused.refusal);
            tell_place(refused);
        }
    }
}

fn tell_place(refused: Refused) {
    let place = refused.place;
    match refused.refusal {
        Refusal::BelowFloor | Refusal::ComesBack if place == 0 => {
            say!("  place 0: the start of the list itself\n");
        }
        Refusal::BelowFloor | Refusal::ComesBack => {
            say!("  place {place:03X}: the structure that holds it\n");
        }
        _ => {}
    }
}

// What each header of a list says of itself.
fn tell_headers(kind: Kind, space: &[u8], room: &Room, count: usize) {
    for offset in room.iter().take(count) {
        let offset = *offset;
        let word = words::word(space, offset as usize);
        match kind {
            Kind::Compatible => {
                let id = word & 0xff;
                say!("  {offset:03X}: ID {id:02X}\n");
            }
            Kind::Extended | Kind::Trusted => {
                let id = word & 0xffff;
                let version = word >> 16 & 0xf;
                say!("  {offset:03X}: ID {id:04X} version {version:X}\n");
            }
        }
    }
}

// The extended list of a space, as the listing shows it.
pub fn tell_listing(space: &[u8]) {
    let mut room = [UNTOUCHED; ROOM];
    let count = lists::walk(Kind::Extended, space, &mut room).unwrap_or(0);
    say!("extended {count}\n");
    for offset in room.iter().take(count) {
        let offset = *offset;
        let word = words::word(space, offset as usize);
        let id = word & 0xffff;
        let version = word >> 16 & 0xf;
        say!("{offset:03X} {id:04X} {version:X}\n");
    }
}
