// Serving a packet: the checks, lowest number first, and then the request that it is.
ghost use Rattle.std.specs.Prelude.{◌≡◌, true, ◌≤◌, length};
ghost use Rattle.packet.specs.Fields.{data_of};
ghost use Rattle.capture.specs.Kept.{forgotten};
ghost use Rattle.board.specs.Serving.{respond};
ghost use Rattle.board.specs.Promise.{lent, after_call, Serves};
ghost use Rattle.board.specs.Description.{badly_described};
ghost use Rattle.board.specs.Inner.{Ready, Leaves};

use super::{Board, Look};
use answers::Refusal;
use capture::Capture;
use packet::{Request, Status};

const REPLY: usize = 16;

// Reset forgets the capture. It is lent no space, so it changes no byte.
pub fn reset(kept: Capture) -> Capture
    ensures { result ≡ forgotten kept }
{
    kept.reset()
}

impl Board<'_> {
    fn is_badly_described(&self) -> bool
        ensures { result ≡ badly_described (lent self.now) }
    {
        let look = Look {
            description: self.description,
            capture: self.capture,
            ordinary: self.ordinary,
            ordinary_rules: self.ordinary_rules,
            ordinary_marks: self.ordinary_marks,
            trusted: self.trusted,
            trusted_rules: self.trusted_rules,
            trusted_marks: self.trusted_marks,
        };
        look.is_badly_described()
    }

    // A request without a fault: unsupported, a write or a read.
    #[tactic(auto, unfolding(crate::specs::Serving::respond))]
    fn respond_to(&mut self, packet: &[u8], request: Request, reply: &mut [u8]) -> usize
        requires ready { Ready (lent self.old) request reply.old }
        requires in_bounds { request.writes ≡ true → 16 ≤ length packet.now }
        ensures same_ordinary { self.new.ordinary.ghost_name ≡ self.old.ordinary.ghost_name }
        ensures same_trusted { self.new.trusted.ghost_name ≡ self.old.trusted.ghost_name }
        ensures leaves { Leaves (respond (lent self.old) request (data_of packet.now)) reply.old (lent self.new) result reply.new }
    {
        if self.is_unsupported(request) {
            self.reply_status(Status::Unsupported, request, reply)
        } else if request.writes {
            self.write(request, words::four(packet, 12));
            self.reply_status(Status::Success, request, reply)
        } else {
            self.reply_data(request, reply)
        }
    }

    // Answers a packet of any length, on spaces and a reply of any length, with how many bytes of the reply are written.
    pub fn serve(&mut self, packet: &[u8], reply: &mut [u8]) -> Result<usize, Refusal>
        ensures same_ordinary { self.new.ordinary.ghost_name ≡ self.old.ordinary.ghost_name }
        ensures same_trusted { self.new.trusted.ghost_name ≡ self.old.trusted.ghost_name }
        ensures serves { Serves (lent self.old) packet.now reply.old (record { answer = result; capture = self.new.capture }) self.new.ordinary.now self.new.trusted.now reply.new }
        ensures holds { lent self.new ≡ after_call (lent self.old) self.new.capture self.new.ordinary.now self.new.trusted.now }
    {
        if self.is_badly_described() {
            return Err(Refusal::BadDescription);
        }
        if reply.len() < REPLY {
            return Err(Refusal::NoRoom);
        }
        let request = packet::decode_under(self.description.edition, packet)?;
        Ok(self.respond_to(packet, request, reply))
    }
}
