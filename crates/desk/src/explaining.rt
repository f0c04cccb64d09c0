// What an answer means, in words: the number, what was asked, what the completion says, what is captured.
use crate::bench::{Bench, REPLY};
use crate::boards::{Address, Board, Kept, Role};
use crate::packets::{self, Outcome};
use crate::say;
use crate::saying::Bytes;
use crate::spaces::{self, Part};
use answers::Refusal;
use packet::{Request, Target};
use reasons::Cause;
use std::fmt::{self, Display, Formatter};

pub const ANSWERED: &str = "answered";

const BAD_BOARD: &str =
    "badly described: a buffer of another size than 1000, a number or an offset out of range, an edition other than 1 and 2, or a bit that is writable and marked";

const BAD_PAIR: &str =
    "badly described: functions with the same number, a buffer of another size than 1000, a number or an offset out of range, an edition other than 1 and 2, or a bit that is writable and marked";

const BIT_7: &str =
    "bit 7 of byte 0 is set: under edition 2 it belongs to the format field, and none of the six has it";

// An answer number and what it means.
pub fn put_number(number: u8, meaning: &str) {
    say!("number {number}: {meaning}\n");
}

pub fn put_refusal(refusal: Refusal) {
    put_number(refusal.number(), meaning_of(refusal));
}

// What a refusal means at the board.
pub fn meaning_of(refusal: Refusal) -> &'static str {
    match refusal {
        Refusal::BadDescription =>
            "badly described: a space of another size than 1000, or a number or an offset out of range",
        Refusal::NoRoom => "no room: the reply's buffer or the list room is too small",
        Refusal::ShortPacket => "the packet has fewer than 12 bytes",
        Refusal::UnknownType => "byte 0 without bit 7 is none of the six type codes",
        Refusal::WrongLength => "the packet's length does not fit its type and digest bit",
        Refusal::WrongField => "TC, Attr or the last enables are not 0, or Length is not 1",
        Refusal::OtherStructure => "another structure stands there",
        Refusal::WrongExtent => "the structure's length is wrong, or it does not fit",
        Refusal::NotOneFunction => "its function vector has not exactly one bit",
        Refusal::BelowFloor => "a pointer below the floor",
        Refusal::ComesBack => "a pointer to an offset that is in the chain already",
        Refusal::WrongGroups =>
            "Num Group is over Max Group, or the index is under C while enabled",
        Refusal::NoLayout => "no layout: no proposal for these structures is accepted",
        Refusal::NotAccepted => "the proposal is not accepted",
    }
}

// The same on the asking side: 1 and 2 of a request that is written, the others of a completion that is read.
pub fn put_asking_refusal(refusal: Refusal) {
    let meaning = match refusal {
        Refusal::BadDescription =>
            "no such request: a kind outside the six, a device over 1F, a function over 7, an offset over FFC or not a multiple of 4, or enables over F",
        Refusal::NoRoom =>
            "no room: the buffer is shorter than the request, which has 12 bytes, or 16 where it writes",
        Refusal::ShortPacket => "the completion has fewer than 12 bytes",
        Refusal::UnknownType => "the first byte is neither 4A nor 0A",
        Refusal::WrongLength =>
            "the completion's length does not fit its first byte: 16 bytes after 4A, 12 after 0A",
        Refusal::WrongField => "a byte that no reply with this first byte has at its place",
        _ => meaning_of(refusal),
    };
    put_number(refusal.number(), meaning);
}

// A packet that was served: the number, what it asked for as the board read it, what the completion says of it, what is captured.
pub fn packet(bench: &Bench, outcome: Outcome) {
    let packet = bench.packet.items();
    put_answer(&bench.board, outcome.answer, packet);
    if let Ok(asked) = packet::decode_under(bench.board.edition(), packet) {
        put_request(asked, packet);
        put_reply(&bench.board, asked, bench.reply, outcome.length());
    }
    tell_captured(&bench.board, outcome.kept);
}

fn put_answer(board: &Board, answer: Result<usize, Refusal>, packet: &[u8]) {
    match answer {
        Err(Refusal::BadDescription) => tell_bad(board),
        Err(Refusal::UnknownType) => put_number(
            Refusal::UnknownType.number(),
            unknown_type(packet),
        ),
        Err(refusal) => put_refusal(refusal),
        Ok(_) => put_number(0, ANSWERED),
    }
}

// Of a badly described board equal numbers, an edition that is none, and the bits that are marked twice are told.
fn tell_bad(board: &Board) {
    put_number(1, if board.is_pair { BAD_PAIR } else { BAD_BOARD });
    if board.is_pair && board.primary.number == board.alternate.number {
        let number = board.primary.number;
        say!("  both functions have the number {number:X}\n");
    }
    let edition = board.edition;
    match board.edition() {
        packet::EDITION_1 | packet::EDITION_2 => {}
        _ => say!("  edition {edition:X} is neither 1 nor 2\n"),
    }
    for role in board.in_order() {
        tell_twice(board, role, Part::Ordinary);
        tell_twice(board, role, Part::Trusted);
    }
}

// A bit that is both writable and cleared by writing 1 is hard to find by hand: so the first byte of each space that has such a bit is told.
fn tell_twice(board: &Board, role: Role, part: Part) {
    let function = board.function(role);
    let space = match part {
        Part::Ordinary => &function.ordinary,
        _ => &function.trusted,
    };
    let Some(at) = space.first_twice() else {
        return;
    };
    if let (Some(rule), Some(mark)) = (space.rules.lent().get(at), space.marks.lent().get(at)) {
        say!("  ");
        spaces::put_name(board, role, part);
        say!(" {at:03X}: rule {rule:02X} and mark {mark:02X} have a bit in common\n");
    }
}

// Why a board gives 4: for bit 7, unless the type is unknown without it too.
fn unknown_type(packet: &[u8]) -> &'static str {
    match packet::decode(packet) {
        Err(Refusal::UnknownType) => meaning_of(Refusal::UnknownType),
        _ => BIT_7,
    }
}

// What a packet asks for, on a line of its own.
pub fn put_request(asked: Request, packet: &[u8]) {
    let bus = asked.bus;
    let device = asked.device;
    let function = asked.function;
    let offset = asked.offset;
    let enables = asked.enables;
    put_kind(asked);
    say!(
        ", bus {bus:02X} device {device:02X} function {function:X}, offset {offset:03X}, enables {enables:04b}"
    );
    put_sender(asked, packet);
}

fn put_kind(asked: Request) {
    let target = match asked.target {
        Target::Type0 => "Type 0",
        Target::Type1 => "Type 1",
        Target::Trusted => "trusted",
    };
    let kind = match (asked.writes, asked.poisoned) {
        (false, false) => "read",
        (false, true) => "poisoned read",
        (true, false) => "write",
        (true, true) => "poisoned write",
    };
    say!("  asks: {target} {kind}");
}

fn put_sender(asked: Request, packet: &[u8]) {
    let requester = asked.requester;
    let high = requester.high;
    let low = requester.low;
    let tag = asked.tag;
    if asked.writes {
        let data = Bytes(packet.get(12..16).unwrap_or(&[]));
        say!(", data{data}");
    }
    say!(", requester {high:02X} {low:02X} tag {tag:02X}\n");
}

// The completion as it is and taken apart from its bytes, where there is one; why it is unsupported, from the request.
fn put_reply(board: &Board, asked: Request, reply: [u8; REPLY], length: usize) {
    if length == 0 {
        return;
    }
    let all = Bytes(reply.get(..length).unwrap_or(&[]));
    let status = if reply[6] == 0 {
        "successful"
    } else {
        reason_of(board, asked)
    };
    let completer = Bytes(&reply[4..6]);
    let requester = Bytes(&reply[8..10]);
    let tag = Bytes(&reply[10..11]);
    say!("  reply:{all}\n  says: {status}; completer{completer}, requester{requester} tag{tag}");
    if reply[0] == 0x4a {
        let data = Bytes(&reply[12..16]);
        say!(", data{data}");
    }
    say!("\n");
}

// Why a request is unsupported. Of two functions the primary answers what is for neither, whatever else it has to say of it.
fn reason_of(board: &Board, asked: Request) -> &'static str {
    let function = board.at_hand();
    match reasons::why(
        packets::describe(function, board.edition()),
        function.capture(),
        asked,
    ) {
        Some(Cause::Type1) => "unsupported request (UR): a Type 1 request",
        _ if is_for_neither(board, asked.function) =>
            "unsupported request (UR): a request for neither function, which the primary answers",
        None => "unsupported request (UR): none",
        Some(Cause::OtherFunction) =>
            "unsupported request (UR): a Type 0 request for another function",
        Some(Cause::NothingCaptured) =>
            "unsupported request (UR): a trusted request while nothing is captured",
        Some(Cause::OtherAddress) =>
            "unsupported request (UR): a trusted request that does not name the captured bus and device and the board's function",
        Some(Cause::PoisonedWrite) => "unsupported request (UR): a poisoned write",
    }
}

fn is_for_neither(board: &Board, function: u8) -> bool {
    board.is_pair && function != board.primary.number && function != board.alternate.number
}

// What is captured now.
pub fn tell_captured(board: &Board, kept: Kept) {
    let captured = Captured::of(board, kept);
    say!("  captured: {captured}\n");
}

// What a board's function has captured; where there are two, what each of them has, the primary first.
#[derive(Clone, Copy)]
pub struct Captured {
    kept: Kept,
    is_pair: bool,
}

impl Captured {
    pub fn of(board: &Board, kept: Kept) -> Captured {
        Captured {
            kept,
            is_pair: board.is_pair,
        }
    }
}

impl Display for Captured {
    fn fmt<W: fmt::Write>(&self, f: &mut Formatter<W>) -> fmt::Result {
        let primary = Capture(self.kept.primary);
        let alternate = Capture(self.kept.alternate);
        if self.is_pair {
            write!(f, "primary {primary}, alternate {alternate}")
        } else {
            write!(f, "{primary}")
        }
    }
}

#[derive(Clone, Copy)]
struct Capture(Option<Address>);

impl Display for Capture {
    fn fmt<W: fmt::Write>(&self, f: &mut Formatter<W>) -> fmt::Result {
        match self.0 {
            None => write!(f, "nothing"),
            Some(Address { bus, device }) => write!(f, "bus {bus:02X} device {device:02X}"),
        }
    }
}
