// Sets of the 256 buses as four words: the range of a port, what two sets have in common, and both together. One word is worked out,
// and the four are that for 0, 1, 2 and 3.
ghost use Rattle.std.specs.Prelude.{◌≡◌, ◌*◌};
ghost use Rattle.ports.specs.Buses.{below, range, buses_of, shared, together};

use super::{Buses, Port};

// Of the 64 buses of a word, those below `end`: all, none, or as many as `end` is past the word's first. Each is there before it is asked which, so that
// no branch hangs on a port's buses.
fn below(end: usize, word: usize) -> u64
    ensures { result ≡ below end (64 * word) }
{
    let whole = end >> 6;
    let part = (1u64 << (end & 0x3f)) - 1;
    if word < whole {
        return 0xffff_ffff_ffff_ffff;
    }
    if whole < word {
        return 0;
    }
    part
}

// Of the 64 buses of a word, those from `from` on and below `end`, where `from` is not past `end`.
fn range(from: usize, end: usize, word: usize) -> u64
    ensures { result ≡ range from end (64 * word) }
{
    below(end, word) ^ below(from, word)
}

impl Buses {
    // No bus at all.
    pub(super) const NONE: Buses = Buses {
        first: 0,
        second: 0,
        third: 0,
        fourth: 0,
    };

    // The buses of a port whose secondary does not exceed its subordinate.
    #[tactic(auto, unfolding(crate::specs::Buses::buses_of))]
    pub(super) fn of(port: Port) -> Buses
        ensures { result ≡ buses_of port }
    {
        let from = port.secondary as usize;
        let last = port.subordinate as usize;
        let end = last + 1;
        Buses {
            first: range(from, end, 0),
            second: range(from, end, 1),
            third: range(from, end, 2),
            fourth: range(from, end, 3),
        }
    }

    // Whether two sets have a bus in common.
    #[tactic(auto, unfolding(crate::specs::Buses::shared))]
    pub(super) fn shares(self, other: Buses) -> bool
        ensures { result ≡ shared self other }
    {
        self.first & other.first != 0
            || self.second & other.second != 0
            || self.third & other.third != 0
            || self.fourth & other.fourth != 0
    }

    // Both sets together.
    #[tactic(auto, unfolding(crate::specs::Buses::together))]
    pub(super) fn union(self, other: Buses) -> Buses
        ensures { result ≡ together self other }
    {
        Buses {
            first: self.first | other.first,
            second: self.second | other.second,
            third: self.third | other.third,
            fourth: self.fourth | other.fourth,
        }
    }
}
