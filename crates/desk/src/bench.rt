// All that statements set and questions are about: the board, the packet that it is sent or the completion that is read, its reply, the switch with its ports
// and their records, and the structures of a new board with their proposal.
use crate::boards::Board;
use crate::desks::Desk;
use crate::keeping::Records;
use crate::list::List;
use crate::structures::{Proposal, Structures};
use crate::walking::UNTOUCHED;
use layout::Structure;
use multicast::Record;
use ports::Port;

// The bytes of the longest packet that a line has, and those of the reply's buffer.
pub const PACKET: usize = 64;

pub const REPLY: usize = 20;

// The byte that fills a buffer before anything is written to it.
pub const UNWRITTEN: u8 = 0xee;

// A line has no more ports. Of records and of structures a list may have one more than is right, so that a longer one can be tried.
const MOST_PORTS: usize = 42;

pub const MOST_RECORDS: usize = 33;

pub const MOST_STRUCTURES: usize = 961;

#[derive(Drop)]
pub struct Bench {
    pub desk: Desk,
    pub board: Board,
    // The packet that the board is sent, or the completion that is read.
    pub packet: List<u8, PACKET>,
    pub reply: [u8; REPLY],
    // These stay with a new board.
    pub ports: List<Port, MOST_PORTS>,
    pub records: Records,
    pub structures: Structures,
    pub proposal: Proposal,
}

impl Bench {
    pub fn new() -> Bench {
        let port = Port {
            secondary: 0,
            subordinate: 0,
            tcs: 0,
        };
        let structure = Structure {
            id: 0,
            version: 0,
            length: 0,
        };
        Bench {
            desk: Desk::new(),
            board: Board::new(0, 0, 0),
            packet: List::alike(UNWRITTEN, 0),
            reply: [UNWRITTEN; REPLY],
            ports: List::alike(port, 0),
            records: List::alike(Record::default(), 0),
            structures: List::alike(structure, 0),
            proposal: List::alike(UNTOUCHED, 0),
        }
    }

    // A question uses up what was lent to it, and so does a line that is not understood, so that no other question gets it.
    pub fn lend_all(&mut self) {
        self.board.lend_all();
        self.desk.room = usize::MAX;
    }
}
