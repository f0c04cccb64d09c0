// A completion is read back, as a test host does it. The number, its fields and what it says of the access are told, or held against what is
// expected.
use crate::bench::Bench;
use crate::desks::Desk;
use crate::saying::Bytes;
use crate::tokens::Tokens;
use crate::vocabulary::Word;
use crate::{explaining, judging, packets, say};
use answers::Refusal;
use asking::{Completion, Said};
use std::fmt::{self, Display, Formatter};

// Says whether this is a check that was right.
pub fn ask(bench: &mut Bench, tokens: Tokens) -> bool {
    packets::take_bytes(bench, tokens);
    let heard = asking::read_completion(bench.packet.items());
    if tokens.is_check() && judge(&bench.desk, tokens, heard) {
        return true;
    }
    match heard {
        Ok(completion) => {
            explaining::put_number(0, "read");
            tell(completion);
        }
        Err(refusal) => explaining::put_asking_refusal(refusal),
    }
    false
}

// What is read back in the reply of a board; nothing where there is no reply.
pub fn tell_reply(reply: &[u8]) {
    if let Ok(completion) = asking::read_completion(reply) {
        tell(completion);
    }
}

fn tell(completion: Completion) {
    say!("  reads: ");
    match completion.said {
        Said::Shown(shown) => {
            let data = Bytes(&shown);
            say!("success with data{data}");
        }
        Said::Done => say!("success without data"),
        Said::Unsupported => say!("UR"),
    }
    let completer = [completion.completer.high, completion.completer.low];
    let requester = [completion.requester.high, completion.requester.low];
    let completer = Bytes(&completer);
    let requester = Bytes(&requester);
    let tag = completion.tag;
    say!("; completer{completer}, requester{requester} tag {tag:02X}\n");
}

// The number, what is said, and each field: all are expected. A refusal says nothing and has no fields.
fn judge(desk: &Desk, tokens: Tokens, heard: Result<Completion, Refusal>) -> bool {
    let wanted = judging::first_of(&[Word::Shown, Word::Done, Word::Unsupported], tokens);
    let answered = judging::number(desk, tokens, answers::number(&heard));
    match heard {
        Ok(completion) => {
            let said = judging::said(desk, Some(word_of(completion.said)), wanted);
            answered & said & judge_completion(desk, tokens, completion)
        }
        Err(_) => {
            let said = judging::said(desk, None, wanted);
            answered & said & judge_fields(desk, tokens, &[], &[], &[], &[])
        }
    }
}

fn word_of(said: Said) -> Word {
    match said {
        Said::Shown(_) => Word::Shown,
        Said::Done => Word::Done,
        Said::Unsupported => Word::Unsupported,
    }
}

fn judge_completion(desk: &Desk, tokens: Tokens, completion: Completion) -> bool {
    let completer = [completion.completer.high, completion.completer.low];
    let requester = [completion.requester.high, completion.requester.low];
    let tag = [completion.tag];
    match completion.said {
        Said::Shown(shown) => { judge_fields(desk, tokens, &completer, &requester, &tag, &shown) }
        Said::Done | Said::Unsupported => judge_fields(
            desk,
            tokens,
            &completer,
            &requester,
            &tag,
            &[],
        ),
    }
}

fn judge_fields(
    desk: &Desk,
    tokens: Tokens,
    completer: &[u8],
    requester: &[u8],
    tag: &[u8],
    shown: &[u8],
) -> bool {
    let completer = judge_field(desk, tokens, Word::Completer, completer);
    let requester = judge_field(desk, tokens, Word::Requester, requester);
    let tag = judge_field(desk, tokens, Word::Tag, tag);
    completer & requester & tag & judge_field(desk, tokens, Word::Shown, shown)
}

// A field as it was read, and the bytes behind its word: four at most.
fn judge_field(desk: &Desk, tokens: Tokens, word: Word, found: &[u8]) -> bool {
    let numbers = tokens.expected(word);
    let four = numbers.four(0);
    let wanted = four.get(..numbers.count()).unwrap_or(&[]);
    if found == wanted {
        return true;
    }
    let found = Field(found);
    let wanted = Field(wanted);
    desk.begin_difference();
    say!("{word}{found}, expected{wanted}\n");
    false
}

#[derive(Clone, Copy)]
struct Field<'a>(&'a [u8]);

impl Display for Field<'_> {
    fn fmt<W: fmt::Write>(&self, f: &mut Formatter<W>) -> fmt::Result {
        let bytes = Bytes(self.0);
        if self.0.is_empty() {
            write!(f, " none")
        } else {
            write!(f, "{bytes}")
        }
    }
}
