// An address is judged at the switch, by the records of its ports. What becomes of a packet for it is told, or held against what is expected: the
// number, no hit or the group, and whether the packet is dropped or by which ports it leaves.
use crate::capabilities::Places;
use crate::desks::Desk;
use crate::tokens::Tokens;
use crate::vocabulary::Word;
use crate::{explaining, judging, missing, say};
use answers::Refusal;
use multicast::{Judged, Record};

// Says whether this is a check that was right.
pub fn ask(desk: &Desk, tokens: Tokens, list: &[Record]) -> bool {
    let entering = tokens.number(1);
    let address = tokens.number(2) as u64;
    let judged = multicast::judge(list, entering, address);
    if tokens.is_check() && judge(desk, tokens, judged) {
        return true;
    }
    tell(judged, list, entering, address);
    false
}

// Of an address that is refused nothing is said.
fn judge(desk: &Desk, tokens: Tokens, judged: Result<Judged, Refusal>) -> bool {
    let (word, group, ports) = match judged {
        Ok(Judged::NoHit) => (Some(Word::NoHit), None, 0),
        Ok(Judged::Dropped { group }) => (Some(Word::Dropped), Some(group as usize), 0),
        Ok(Judged::Leaves { group, ports }) => (Some(Word::LeavesBy), Some(group as usize), ports),
        Err(_) => (None, None, 0),
    };
    let wanted = judging::first_of(&[Word::NoHit, Word::Dropped, Word::LeavesBy], tokens);
    let answered = judging::number(desk, tokens, answers::number(&judged));
    let said = judging::said(desk, word, wanted);
    let grouped = judging::perhaps(desk, "group", group, tokens.first_expected(Word::Group));
    let (found, wanted) = (ports as u64, wanted_ports(tokens));
    let left = judging::listed(
        desk,
        found == wanted,
        "ports",
        Places(found),
        Places(wanted),
    );
    answered & said & grouped & left
}

// The set of the ports behind their word, in whatever order.
fn wanted_ports(tokens: Tokens) -> u64 {
    let numbers = tokens.expected(Word::LeavesBy);
    let mut set = 0;
    for place in 0..numbers.count() {
        set |= 1u64 << (numbers.number(place) % 64);
    }
    set
}

fn tell(judged: Result<Judged, Refusal>, list: &[Record], entering: usize, address: u64) {
    match judged {
        Err(refusal) => {
            explaining::put_number(refusal.number(), missing::REFUSED);
            missing::tell_refused(list, entering);
        }
        Ok(judged) => {
            explaining::put_number(0, explaining::ANSWERED);
            tell_judged(judged, list, entering, address);
        }
    }
}

fn tell_judged(judged: Judged, list: &[Record], entering: usize, address: u64) {
    match judged {
        Judged::NoHit => missing::tell_no_hit(list, entering, address),
        Judged::Dropped { group } => say!(
            "  group {group:X}, dropped where it enters: the Block All bit of port {entering:X} is 1\n"
        ),
        Judged::Leaves { group, ports: 0 } => say!("  group {group:X}, leaves by no port\n"),
        Judged::Leaves { group, ports } => {
            let places = Places(ports as u64);
            say!("  group {group:X}, leaves by ports:{places}\n");
        }
    }
}
