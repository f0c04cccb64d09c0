// A Multicast capability of the board at the desk is asked for. Its number and its seven fields are told, or held against what is expected; it
// may be kept as the record of a port of the switch.
use crate::desks::Desk;
use crate::keeping::{Records, numbers_of};
use crate::tokens::Tokens;
use crate::vocabulary::Word;
use crate::{explaining, reading, say};
use answers::Refusal;
use multicast::Record;
use std::fmt::{self, Display, Formatter};

// How many groups there may be, each with a bit of a register.
const PLACES: u32 = 64;

// Says whether this is a check that was right.
pub fn ask(desk: &Desk, tokens: Tokens, space: &[u8]) -> bool {
    answer(desk, tokens, space, read(tokens, space))
}

// The same, and what is found becomes the record of a port; a refusal leaves that as it is.
pub fn keep(desk: &Desk, tokens: Tokens, space: &[u8], records: &mut Records) -> bool {
    let found = read(tokens, space);
    let right = answer(desk, tokens, space, found);
    let port = tokens.number(3);
    if let Ok(record) = found {
        records.set(port, record);
        if !right {
            say!("  kept: the record of port {port:X}\n");
        }
    }
    right
}

fn read(tokens: Tokens, space: &[u8]) -> Result<Record, Refusal> {
    multicast::read(space, tokens.number(2))
}

fn answer(desk: &Desk, tokens: Tokens, space: &[u8], found: Result<Record, Refusal>) -> bool {
    match found {
        Ok(record) => answer_found(desk, tokens, record),
        Err(refusal) => answer_refused(desk, tokens, refusal, space),
    }
}

fn answer_refused(desk: &Desk, tokens: Tokens, refusal: Refusal, space: &[u8]) -> bool {
    let right = reading::refused(desk, tokens, Word::Fields, refusal);
    if !right && refusal == Refusal::WrongGroups {
        tell_clash(space.get(tokens.number(2)..).unwrap_or(&[]));
    }
    right
}

fn answer_found(desk: &Desk, tokens: Tokens, record: Record) -> bool {
    if tokens.is_check() && reading::judge(desk, tokens, 0, Word::Fields, &numbers_of(record)) {
        return true;
    }
    explaining::put_number(0, explaining::ANSWERED);
    tell(record);
    false
}

// The seven fields in words.
fn tell(record: Record) {
    let enabled = Enabled(record.enable == 1);
    let most = record.max_group;
    let count = record.num_group;
    let base = record.base;
    let index = record.index;
    let window = 1u64 << (index % 64);
    let receive = record.receive;
    let block_all = record.block_all;
    let received = Places(receive);
    let blocked = Places(block_all);
    say!("  Max Group {most:X}, Num Group {count:X}, {enabled}\n");
    say!("  base {base:X}, index {index:X}: the window of a group has {window:X} bytes\n");
    say!("  Receive {receive:X}, groups:{received}\n");
    say!("  Block All {block_all:X}, groups:{blocked}\n");
}

// Fields that do not go together, as they stand in the space, from the capability on.
fn tell_clash(capability: &[u8]) {
    let [_, _, _, _, most, _, count, enable, index, ..] = capability else {
        return;
    };
    let most = most % 64;
    let count = count % 64;
    let enabled = Enabled(*enable >= 0x80);
    let index = index % 64;
    say!("  Max Group {most:X}, Num Group {count:X}, {enabled}, index {index:X}\n");
}

// Whether groups are enabled.
#[derive(Clone, Copy)]
struct Enabled(bool);

impl Display for Enabled {
    fn fmt<W: fmt::Write>(&self, f: &mut Formatter<W>) -> fmt::Result {
        if self.0 {
            write!(f, "enabled")
        } else {
            write!(f, "not enabled")
        }
    }
}

// The places of the bits that are 1, or that none is.
#[derive(Clone, Copy)]
pub struct Places(pub u64);

impl Display for Places {
    fn fmt<W: fmt::Write>(&self, f: &mut Formatter<W>) -> fmt::Result {
        if self.0 == 0 {
            return write!(f, " none");
        }
        for place in 0..PLACES {
            if self.0 >> place & 1 == 1 {
                write!(f, " {place:X}")?;
            }
        }
        Ok(())
    }
}
