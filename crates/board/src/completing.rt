// The completion, written at the start of the reply.
ghost use Rattle.std.specs.Prelude.{◌≡◌, ◌≤◌, length};
ghost use Rattle.board.specs.Serving.{replies, replies_data, completer_of};
ghost use Rattle.board.specs.Promise.{lent, over};
ghost use Rattle.board.specs.Inner.{Leaves, Readable};

use super::Board;
use packet::{Id, Request, Status};

// Puts a completion of either kind at the start of a reply that has room for it, and says how many bytes it has.
fn put(completion: &[u8], reply: &mut [u8]) -> usize
    requires { length completion.now ≤ length reply.old }
    ensures count { result ≡ length completion.now }
    ensures written { reply.new ≡ over completion.now reply.old }
{
    words::put(reply, 0, completion);
    completion.len()
}

impl Board<'_> {
    #[tactic(auto, unfolding(capture::specs::Kept::identified))]
    fn completer_id(&self) -> Id
        ensures { result ≡ completer_of (lent self.now) }
    {
        self.capture.completer_id(self.description.function).id
    }

    pub(super) fn reply_status(&self, status: Status, request: Request, reply: &mut [u8]) -> usize
        requires { 16 ≤ length reply.old }
        ensures { Leaves (replies (lent self.now) status request) reply.old (lent self.now) result reply.new }
    {
        let id = self.completer_id();
        put(
            &packet::without_data(id, status, request.requester, request.tag),
            reply,
        )
    }

    pub(super) fn reply_data(&self, request: Request, reply: &mut [u8]) -> usize
        requires room { 16 ≤ length reply.old }
        requires readable { Readable self.now.description self.now.ordinary.now self.now.trusted.now request }
        ensures { Leaves (replies_data (lent self.now) request) reply.old (lent self.now) result reply.new }
    {
        let id = self.completer_id();
        let word = self.read_word(request);
        put(
            &packet::with_data(id, request.requester, request.tag, word),
            reply,
        )
    }
}
