// Document 01's table of the three lists: the start, the header's pointer, the floor and the maximum of each.
ghost use Rattle.std.specs.Prelude.{◌≡◌, ◌*◌, ◌≤◌, ◌<◌};
ghost use Rattle.lists.specs.declared.Kind.{Kind};
ghost use Rattle.lists.specs.declared.Kind.TheVariants as kinds;
ghost use Rattle.lists.specs.Table.{describe, extended_next};
ghost use Rattle.lists.specs.Chain.{dropped, first, follows};
ghost use Rattle.lists.specs.Inner.{offset_of, Raw, Counted, Whole};

use words::SPACE;

// A row of the table. What is generic in it is compiled for each of the three. The floor and the maximum are functions: a constant has no contract.
pub(crate) trait List {
    ghost kind: { Kind };

    fn floor() -> usize
        ensures { result ≡ (describe kind).floor };

    fn maximum() -> usize
        ensures { result ≡ (describe kind).maximum };

    // The offset of a position: a position counts words, and bytes in the compatible list, whose pointer is a byte.
    fn offset(position: usize) -> usize
        requires { offset_of kind position ≤ 0xffc }
        ensures { result ≡ offset_of kind position };

    // The position that a pointer leads to, without its bottom two bits.
    fn position(pointer: usize) -> usize
        requires { pointer < 0x1000 }
        ensures { Counted kind (dropped pointer) result };

    // The pointer to the first header.
    fn start(space: &[u8; SPACE]) -> u32
        ensures { Raw ((describe kind).start space.now) result };

    // The pointer in the header at a position.
    fn next(space: &[u8; SPACE], position: usize) -> usize
        requires { offset_of kind position ≤ 0xffc }
        ensures { Raw ((describe kind).next space.now (offset_of kind position)) result };
}

// The position of the list's first header, or 0.
#[tactic(auto, using(crate::proofs::Pointers::counted_from), unfolding(crate::specs::Chain::first))]
pub(crate) fn first<L: List>(space: &[u8; SPACE]) -> usize
    ensures { Counted L.kind (first (describe L.kind) space.now) result }
{
    L::position(L::start(space) as usize)
}

// The position that the header at a position points to, or 0.
#[tactic(auto, using(crate::proofs::Pointers::counted_from), unfolding(crate::specs::Chain::follows))]
pub(crate) fn follow<L: List>(space: &[u8; SPACE], position: usize) -> usize
    requires { offset_of L.kind position ≤ 0xffc }
    ensures { Counted L.kind (follows (describe L.kind) space.now (offset_of L.kind position)) result }
{
    L::position(L::next(space, position))
}

// The compatible list: a bit of the status byte says that there is one, and a byte points to its first header.
pub(crate) struct Compatible;

const STATUS: usize = 0x06;

const CAPABILITIES: u8 = 4;

const COMPATIBLE_START: usize = 0x34;

const COMPATIBLE_FLOOR: usize = 0x040;

pub const COMPATIBLE_MAXIMUM: usize = 48;

impl List for Compatible {
    ghost kind = { kinds.Compatible };

    fn floor() -> usize {
        COMPATIBLE_FLOOR
    }

    fn maximum() -> usize {
        COMPATIBLE_MAXIMUM
    }

    fn offset(position: usize) -> usize {
        position
    }

    fn position(pointer: usize) -> usize {
        4 * (pointer >> 2)
    }

    fn start(space: &[u8; SPACE]) -> u32 {
        if (space[STATUS] >> CAPABILITIES) & 1 == 0 {
            return 0;
        }
        // Taken out of its word: from a byte, the compiler would carry a byte through the chase, and widen it at every step.
        words::word(space, COMPATIBLE_START) & 0xff
    }

    #[tactic(auto, unfolding(crate::specs::Table::compatible_next))]
    fn next(space: &[u8; SPACE], offset: usize) -> usize {
        space[offset + 1] as usize
    }
}

// The extended list: its first header has a fixed offset, and a word of 0 there says that there is none.
pub(crate) struct Extended;

const EXTENDED_START: usize = 0x100;

const EXTENDED_FLOOR: usize = 0x100;

pub const EXTENDED_MAXIMUM: usize = 960;

impl List for Extended {
    ghost kind = { kinds.Extended };

    fn floor() -> usize {
        EXTENDED_FLOOR
    }

    fn maximum() -> usize {
        EXTENDED_MAXIMUM
    }

    fn offset(position: usize) -> usize {
        4 * position
    }

    fn position(pointer: usize) -> usize {
        pointer >> 2
    }

    fn start(space: &[u8; SPACE]) -> u32 {
        if words::word(space, EXTENDED_START) == 0 {
            return 0;
        }
        EXTENDED_START as u32
    }

    fn next(space: &[u8; SPACE], position: usize) -> usize {
        extended_next(space, position)
    }
}

// The trusted list: a word points to its first header.
pub(crate) struct Trusted;

const TRUSTED_START: usize = 0x004;

const TRUSTED_FLOOR: usize = 0x008;

pub const TRUSTED_MAXIMUM: usize = 1022;

impl List for Trusted {
    ghost kind = { kinds.Trusted };

    fn floor() -> usize {
        TRUSTED_FLOOR
    }

    fn maximum() -> usize {
        TRUSTED_MAXIMUM
    }

    fn offset(position: usize) -> usize {
        4 * position
    }

    fn position(pointer: usize) -> usize {
        pointer >> 2
    }

    fn start(space: &[u8; SPACE]) -> u32 {
        words::word(space, TRUSTED_START) & 0xfff
    }

    fn next(space: &[u8; SPACE], position: usize) -> usize {
        extended_next(space, position)
    }
}

// The pointer in the header at a position of the extended or the trusted list.
#[tactic(auto, using(crate::proofs::Pointers::whole_pointer))]
fn extended_next(space: &[u8; SPACE], position: usize) -> usize
    requires { 4 * position ≤ 0xffc }
    ensures { Raw (extended_next space.now (4 * position)) result }
{
    (word_of(space, position) >> 20) as usize
}

// The word at a position that counts words. `words::word` would test at every header whether it lies in the space.
fn word_of(space: &[u8; SPACE], position: usize) -> u32
    requires { 4 * position ≤ 0xffc }
    ensures { Whole space.now (4 * position) result }
{
    let at = 4 * position;
    words::joined(space[at], space[at + 1], space[at + 2], space[at + 3])
}
