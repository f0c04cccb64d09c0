// Why nothing is proposed for the structures of a new board, and why a proposal is not accepted: the first of the causes, in words.
use crate::say;
use answers::Refusal;
use layout::{MOST, Structure};
use std::fmt::{self, Display, Formatter};

// Why a structure may not be laid out.
#[derive(Clone, Copy)]
enum Fault {
    NoId,
    Version,
    Short,
    Long,
}

impl Display for Fault {
    fn fmt<W: fmt::Write>(&self, f: &mut Formatter<W>) -> fmt::Result {
        match self {
            Fault::NoId => write!(f, "its ID is 0"),
            Fault::Version => write!(f, "its version is over F"),
            Fault::Short => write!(f, "its length is under 4"),
            Fault::Long => write!(f, "its length is over F00"),
        }
    }
}

// The rules behind one offset a structure, in the order of the request, each looked at at all places before the next.
#[derive(Clone, Copy)]
enum Rule {
    First,
    Aligned,
    Rising,
    Apart,
    Inside,
}

const RULES: [Rule; 5] = [
    Rule::First,
    Rule::Aligned,
    Rule::Rising,
    Rule::Apart,
    Rule::Inside,
];

// What is lent is the room of a plan.
pub fn tell(refusal: Refusal, list: &[Structure], proposed: &[u16], lent: usize) {
    let count = list.len();
    match refusal {
        Refusal::BadDescription => tell_bad(list),
        Refusal::NoRoom => say!(
            "  the room has {lent:X} entries, and there are {count:X} structures\n"
        ),
        Refusal::NoLayout => {
            let bytes = needed(list);
            say!("  the structures need {bytes:X} bytes, and there are F00\n");
        }
        _ => tell_unaccepted(list, proposed),
    }
}

fn tell_bad(list: &[Structure]) {
    let count = list.len();
    if count == 0 {
        say!("  the list has no structure\n");
    } else if MOST < count {
        say!("  the list has {count:X} structures, and may have 3C0\n");
    } else {
        tell_faulty(list);
    }
}

// The first structure that may not be laid out. (As in `missing`, of another list, with other faults and another text: one for both would take all three.)
fn tell_faulty(list: &[Structure]) {
    for (place, structure) in list.iter().enumerate() {
        if let Some(fault) = fault_of(structure) {
            say!("  structure {place:X}: {fault}\n");
            return;
        }
    }
}

fn fault_of(structure: &Structure) -> Option<Fault> {
    if structure.id == 0 {
        return Some(Fault::NoId);
    }
    if 15 < structure.version {
        return Some(Fault::Version);
    }
    match structure.length {
        0..=3 => Some(Fault::Short),
        4..=3840 => None,
        _ => Some(Fault::Long),
    }
}

// How many bytes the structures need: each begins at a multiple of 4, and the last ends where it ends.
fn needed(list: &[Structure]) -> usize {
    let mut bytes = 0;
    for structure in list {
        bytes = rounded_up(bytes).wrapping_add(structure.length as usize);
    }
    bytes
}

fn rounded_up(bytes: usize) -> usize {
    let more = bytes.wrapping_add(3);
    more - more % 4
}

fn tell_unaccepted(list: &[Structure], proposed: &[u16]) {
    let offsets = proposed.len();
    let structures = list.len();
    if offsets != structures {
        say!("  the proposal has {offsets:X} offsets, and there are {structures:X} structures\n");
        return;
    }
    for rule in RULES {
        if tell_broken(rule, list, proposed) {
            return;
        }
    }
}

// Tells the first place where a rule is broken. Says whether there is one. Before the first structure is one at 0, which has no bytes.
fn tell_broken(rule: Rule, list: &[Structure], proposed: &[u16]) -> bool {
    let mut before = 0;
    let mut end = 0;
    for (place, (structure, offset)) in list.iter().zip(proposed).enumerate() {
        let at = *offset as usize;
        let ends = at + structure.length as usize;
        let limit = match rule {
            Rule::First | Rule::Aligned => 0,
            Rule::Rising => before,
            Rule::Apart => end,
            Rule::Inside => ends,
        };
        if is_broken(rule, place, at, limit) {
            tell_rule(rule, place, at, limit);
            return true;
        }
        before = at;
        end = ends;
    }
    false
}

fn is_broken(rule: Rule, place: usize, at: usize, limit: usize) -> bool {
    match rule {
        Rule::First => place == 0 && at != 0x100,
        Rule::Aligned => at % 4 != 0,
        Rule::Rising => at <= limit,
        Rule::Apart => at < limit,
        Rule::Inside => words::SPACE < limit,
    }
}

// The limit is the offset before, where the structure there ends, or where this one does.
fn tell_rule(rule: Rule, place: usize, at: usize, limit: usize) {
    say!("  structure {place:X} at {at:X}: ");
    match rule {
        Rule::First => say!("the first is not at 100\n"),
        Rule::Aligned => say!("no multiple of 4\n"),
        Rule::Rising => say!("not above the one before it, at {limit:X}\n"),
        Rule::Apart => say!("the one before it ends at {limit:X}, and they overlap\n"),
        Rule::Inside => say!("ends at {limit:X}, past 1000\n"),
    }
}
