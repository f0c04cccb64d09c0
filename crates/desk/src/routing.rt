// A packet is sent through the switch at the desk, over the ports that it has. What becomes of it is told, or held against what is
// expected: the number, the port, and what leaves with the rest of its buffer.
use crate::bench::{Bench, UNWRITTEN};
use crate::desks::Desk;
use crate::tokens::Tokens;
use crate::vocabulary::Word;
use crate::{judging, leaving, packets};
use answers::Refusal;
use ports::{Choice, Port, Survey};
use router::Verdict;

// The bytes of the buffer for what leaves, more than any packet has.
const LEAVING: usize = 24;

// What became of a packet, or why it was not routed.
pub type Routed = Result<Verdict, Refusal>;

// Says whether this is a check that was right.
pub fn ask(bench: &mut Bench, tokens: Tokens) -> bool {
    let mut buffer = [UNWRITTEN; LEAVING];
    packets::take_bytes(bench, tokens);
    let packet = bench.packet.items();
    let room = bench.desk.room.min(LEAVING);
    let choice = choose(bench.ports.items(), router::bus_of(packet));
    let routed = router::decide(choice, packet, &mut buffer[..room]);
    if tokens.is_check() && judge(&bench.desk, tokens, routed, &buffer) {
        return true;
    }
    leaving::tell(packet, routed, &buffer);
    false
}

// The port that has a bus: all that the line gave are noted, in their order.
fn choose(ports: &[Port], bus: u8) -> Choice {
    let mut survey = Survey::begin(bus);
    for port in ports {
        survey.note(*port);
    }
    survey.conclude()
}

// The number, the port, and what leaves at the front of its buffer, with the rest untouched.
fn judge(desk: &Desk, tokens: Tokens, routed: Routed, buffer: &[u8]) -> bool {
    let (port, length) = match routed {
        Ok(Verdict::Leaves { port, length }) => (Some(port as usize), length),
        Ok(Verdict::Unsupported) | Err(_) => (None, 0),
    };
    let answered = judging::number(desk, tokens, answers::number(&routed));
    let chosen = judging::perhaps(desk, "port", port, tokens.first_expected(Word::Port));
    answered & chosen & judge_leaving(desk, tokens, length, buffer)
}

fn judge_leaving(desk: &Desk, tokens: Tokens, length: usize, buffer: &[u8]) -> bool {
    let numbers = tokens.expected(Word::Leaves);
    let mut wanted = [UNWRITTEN; LEAVING];
    numbers.fill(&mut wanted);
    judging::value(desk, "leaving length", length, numbers.count())
        && judging::bytes(desk, "leaving byte", buffer, &wanted)
}
