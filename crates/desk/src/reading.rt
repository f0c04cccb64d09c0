// A DVSEC or a Dual-BDF record of the board at the desk is asked for. Its number, its fields and its body are told, or held against what
// is expected.
use crate::desks::Desk;
use crate::saying::Bytes;
use crate::tokens::Tokens;
use crate::vocabulary::Word;
use crate::{explaining, judging, say};
use answers::Refusal;
use records::{Alternate, DvsecHeader};

pub fn ask_dvsec(desk: &Desk, tokens: Tokens, space: &[u8]) -> bool {
    let at = tokens.number(2);
    match records::dvsec(space, at) {
        Err(refusal) => refused(desk, tokens, Word::Header, refusal),
        Ok(header) => header_found(desk, tokens, header, records::dvsec_body(space, at)),
    }
}

fn header_found(desk: &Desk, tokens: Tokens, header: DvsecHeader, body: &[u8]) -> bool {
    let place = tokens.number(2).wrapping_add(records::BODY);
    let vendor = header.vendor;
    let revision = header.revision;
    let id = header.id;
    let length = header.length;
    let fields = [
        vendor as usize,
        revision as usize,
        id as usize,
        length as usize,
    ];
    if tokens.is_check() {
        let told = judge(desk, tokens, 0, Word::Header, &fields);
        if told & judge_body(desk, tokens, place, body.len()) {
            return true;
        }
    }
    let bytes = Bytes(body);
    explaining::put_number(0, explaining::ANSWERED);
    say!("  vendor {vendor:04X} revision {revision:X} ID {id:04X} length {length:03X}\n");
    say!("  body:{bytes}\n");
    false
}

// A Dual-BDF record has no body.
pub fn ask_dual(desk: &Desk, tokens: Tokens, space: &[u8]) -> bool {
    match records::dual_bdf(space, tokens.number(2)) {
        Err(refusal) => refused(desk, tokens, Word::Alternate, refusal),
        Ok(alternate) => alternate_found(desk, tokens, alternate),
    }
}

fn alternate_found(desk: &Desk, tokens: Tokens, alternate: Alternate) -> bool {
    let function = alternate.function;
    let device = alternate.device;
    let fields = [function as usize, device as usize];
    if tokens.is_check() && judge(desk, tokens, 0, Word::Alternate, &fields) {
        return true;
    }
    explaining::put_number(0, explaining::ANSWERED);
    say!("  alternate: function {function:X} device {device:02X}\n");
    false
}

// A refusal has no fields and no body.
pub fn refused(desk: &Desk, tokens: Tokens, word: Word, refusal: Refusal) -> bool {
    if tokens.is_check() {
        let told = judge(desk, tokens, refusal.number(), word, &[]);
        if told & judge_body(desk, tokens, 0, 0) {
            return true;
        }
    }
    explaining::put_refusal(refusal);
    false
}

// The number, how many fields stand behind the word for them, and each of them.
pub fn judge(desk: &Desk, tokens: Tokens, number: u8, word: Word, fields: &[usize]) -> bool {
    let answered = judging::number(desk, tokens, number);
    let numbers = tokens.expected(word);
    answered
        & (judging::value(desk, "count of fields", fields.len(), numbers.count())
            && judge_each(desk, fields, numbers))
}

fn judge_each(desk: &Desk, fields: &[usize], numbers: Tokens) -> bool {
    let mut right = true;
    for (place, field) in fields.iter().enumerate() {
        right &= judging::value(desk, "field", *field, numbers.number(place));
    }
    right
}

// The body is so many bytes of the space, from an offset on: the two numbers. Without them it is empty, and its place is not told.
fn judge_body(desk: &Desk, tokens: Tokens, place: usize, length: usize) -> bool {
    let numbers = tokens.expected(Word::Body);
    if !tokens.expects(Word::Body) {
        return judging::value(desk, "body's length", length, 0);
    }
    let told = judging::value(desk, "body's place", place, numbers.number(0));
    told & judging::value(desk, "body's length", length, numbers.number(1))
}
