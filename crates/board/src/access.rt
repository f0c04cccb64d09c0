// The access: which requests are unsupported, what a write leaves in a space, what a read shows.
ghost use Rattle.std.specs.Prelude.{◌≡◌};
ghost use Rattle.board.specs.Access.{addressed, unsupported, stored_bytes, after_write, picked_word, shown_word};
ghost use Rattle.board.specs.Promise.{space_of, lent};
ghost use Rattle.board.specs.Inner.{Sized, Readable};

use super::Board;
use capture::Capture;
use packet::{Request, Target};

// A write to a space: the data merged into the four bytes at the request's offset.
fn store(bytes: &mut [u8], rules: &[u8], marks: &[u8], request: Request, new: [u8; 4])
    requires { Sized (space_of bytes.old rules.now marks.now) request }
    ensures { bytes.new ≡ stored_bytes (space_of bytes.old rules.now marks.now) request new }
{
    let offset = request.offset;
    let old = words::four(bytes, offset);
    let rule = words::four(rules, offset);
    let mark = words::four(marks, offset);
    let merged = registers::merge(old, rule, mark, new, request.enables);
    words::put(bytes, offset, &merged);
}

impl Board<'_> {
    // What a write that succeeds leaves. An ordinary one captures, and changes no byte at the correlation word's place.
    #[tactic(auto, using(crate::proofs::Outcomes::written_at_a))]
    pub(super) fn write(&mut self, request: Request, new: [u8; 4])
        requires ordinary { Sized (lent self.old).ordinary request }
        requires trusted { Sized (lent self.old).trusted request }
        ensures same_ordinary { self.new.ordinary.ghost_name ≡ self.old.ordinary.ghost_name }
        ensures same_trusted { self.new.trusted.ghost_name ≡ self.old.trusted.ghost_name }
        ensures after { lent self.new ≡ after_write (lent self.old) request new }
    {
        if request.target.is_trusted() {
            store(
                self.trusted,
                self.trusted_rules,
                self.trusted_marks,
                request,
                new,
            );
            return;
        }
        self.capture = self.capture.capture(request.bus, request.device);
        if request.offset != self.description.a {
            store(
                self.ordinary,
                self.ordinary_rules,
                self.ordinary_marks,
                request,
                new,
            );
        }
    }

    // The request's bus, device and function are the captured two and the board's own.
    fn is_addressed(&self, request: Request) -> bool
        ensures { result ≡ addressed self.now.description self.now.capture request }
    {
        matches!(self.capture, Capture::Number { bus, device }
            if request.bus == bus && request.device == device && request.function == self.description.function)
    }

    #[tactic(auto, using(crate::proofs::Laws::unsupported_poisoned, crate::proofs::Laws::unsupported_type0, crate::proofs::Laws::unsupported_type1, crate::proofs::Laws::unsupported_trusted))]
    pub(super) fn is_unsupported(&self, request: Request) -> bool
        ensures { result ≡ unsupported self.now.description self.now.capture request }
    {
        if request.writes && request.poisoned {
            return true;
        }
        match request.target {
            Target::Type0 => request.function != self.description.function,
            Target::Type1 => true,
            Target::Trusted => !self.is_addressed(request),
        }
    }

    // The four bytes that a read is for: at the correlation word's place those of the trusted space.
    #[tactic(auto, using(crate::proofs::Laws::picked_trusted, crate::proofs::Laws::picked_correlation, crate::proofs::Laws::picked_ordinary))]
    fn pick_word(&self, request: Request) -> [u8; 4]
        requires { Readable self.now.description self.now.ordinary.now self.now.trusted.now request }
        ensures { result ≡ picked_word self.now.description self.now.ordinary.now self.now.trusted.now request }
    {
        let offset = request.offset;
        match request.target {
            Target::Trusted => words::four(self.trusted, offset),
            _ if offset == self.description.a => words::four(self.trusted, self.description.b),
            _ => words::four(self.ordinary, offset),
        }
    }

    // The four bytes that a read shows.
    #[tactic(auto, unfolding(crate::specs::Access::shown_word))]
    pub(super) fn read_word(&self, request: Request) -> [u8; 4]
        requires { Readable self.now.description self.now.ordinary.now self.now.trusted.now request }
        ensures { result ≡ shown_word self.now.description self.now.ordinary.now self.now.trusted.now request }
    {
        registers::show(self.pick_word(request))
    }
}
