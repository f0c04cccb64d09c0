// Serving a packet on a board of two functions: one of them serves it as a board of its own, and the other is only looked at.
ghost use Rattle.std.specs.Prelude.{◌≡◌};
ghost use Rattle.board.specs.Description.{badly_described};
ghost use Rattle.board.specs.Promise.{Serves};
ghost use Rattle.pair.specs.Pair.{described, board_of, forgotten_both};
ghost use Rattle.pair.specs.Promise.{lent_side, held_side, lent_pair, PairServes};
ghost use Rattle.pair.specs.Inner.{ServesBeside};

use super::{Captures, Function, Side, choosing};
use answers::Refusal;
use board::{Board, Description, Look};

impl Function {
    fn described(self, edition: u32) -> Description
        ensures { result ≡ described edition self }
    {
        Description {
            function: self.number,
            a: self.a,
            b: self.b,
            edition,
        }
    }
}

impl Side<'_> {
    // Whether it is badly described as a board of its own.
    fn is_badly_described(&self, edition: u32) -> bool
        ensures { result ≡ badly_described (board_of edition (lent_side self.now)) }
    {
        let look = Look {
            description: self.function.described(edition),
            capture: self.capture,
            ordinary: self.ordinary,
            ordinary_rules: self.ordinary_rules,
            ordinary_marks: self.ordinary_marks,
            trusted: self.trusted,
            trusted_rules: self.trusted_rules,
            trusted_marks: self.trusted_marks,
        };
        look.is_badly_described()
    }

    // Serves a packet as a board of its own.
    fn serve(&mut self, edition: u32, packet: &[u8], reply: &mut [u8]) -> Result<usize, Refusal>
        ensures same_ordinary { self.new.ordinary.ghost_name ≡ self.old.ordinary.ghost_name }
        ensures same_trusted { self.new.trusted.ghost_name ≡ self.old.trusted.ghost_name }
        ensures serves { Serves (board_of edition (lent_side self.old)) packet.now reply.old (record { answer = result; capture = self.new.capture }) self.new.ordinary.now self.new.trusted.now reply.new }
        ensures holds { lent_side self.new ≡ held_side (lent_side self.old) self.new.capture self.new.ordinary.now self.new.trusted.now }
    {
        let mut board = Board {
            description: self.function.described(edition),
            capture: self.capture,
            ordinary: self.ordinary,
            ordinary_rules: self.ordinary_rules,
            ordinary_marks: self.ordinary_marks,
            trusted: self.trusted,
            trusted_rules: self.trusted_rules,
            trusted_marks: self.trusted_marks,
        };
        let answer = board.serve(packet, reply);
        self.capture = board.capture;
        answer
    }

    // Serves a packet, unless the other function, which is only looked at, is badly described.
    fn serve_beside(
        &mut self,
        other: &Side,
        edition: u32,
        packet: &[u8],
        reply: &mut [u8],
    ) -> Result<usize, Refusal>
        ensures same_ordinary { self.new.ordinary.ghost_name ≡ self.old.ordinary.ghost_name }
        ensures same_trusted { self.new.trusted.ghost_name ≡ self.old.trusted.ghost_name }
        ensures serves { ServesBeside (board_of edition (lent_side self.old)) (board_of edition (lent_side other.now)) packet.now reply.old (record { answer = result; capture = self.new.capture }) self.new.ordinary.now self.new.trusted.now reply.new }
        ensures holds { lent_side self.new ≡ held_side (lent_side self.old) self.new.capture self.new.ordinary.now self.new.trusted.now }
    {
        if other.is_badly_described(edition) {
            return Err(Refusal::BadDescription);
        }
        self.serve(edition, packet, reply)
    }
}

// Answers a packet of any length, on spaces and a reply of any length, with how many bytes of the reply are written.
pub fn serve(
    edition: u32,
    primary: &mut Side,
    alternate: &mut Side,
    packet: &[u8],
    reply: &mut [u8],
) -> Result<usize, Refusal>
    ensures same_primary_ordinary { primary.new.ordinary.ghost_name ≡ primary.old.ordinary.ghost_name }
    ensures same_primary_trusted { primary.new.trusted.ghost_name ≡ primary.old.trusted.ghost_name }
    ensures same_alternate_ordinary { alternate.new.ordinary.ghost_name ≡ alternate.old.ordinary.ghost_name }
    ensures same_alternate_trusted { alternate.new.trusted.ghost_name ≡ alternate.old.trusted.ghost_name }
    ensures serves { PairServes (lent_pair edition (lent_side primary.old) (lent_side alternate.old)) packet.now reply.old (record { answer = result; kept = record { primary = primary.new.capture; alternate = alternate.new.capture } }) primary.new.ordinary.now primary.new.trusted.now alternate.new.ordinary.now alternate.new.trusted.now reply.new }
    ensures holds_primary { lent_side primary.new ≡ held_side (lent_side primary.old) primary.new.capture primary.new.ordinary.now primary.new.trusted.now }
    ensures holds_alternate { lent_side alternate.new ≡ held_side (lent_side alternate.old) alternate.new.capture alternate.new.ordinary.now alternate.new.trusted.now }
{
    if primary.function.number == alternate.function.number {
        return Err(Refusal::BadDescription);
    }
    if choosing::is_for(edition, alternate.function.number, packet) {
        alternate.serve_beside(primary, edition, packet, reply)
    } else {
        primary.serve_beside(alternate, edition, packet, reply)
    }
}

// Reset forgets both captures. It is lent no space, so it changes no byte.
pub fn reset(kept: Captures) -> Captures
    ensures { result ≡ forgotten_both kept }
{
    Captures {
        primary: board::reset(kept.primary),
        alternate: board::reset(kept.alternate),
    }
}
