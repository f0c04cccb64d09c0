#![tactic(auto)]
// The capability lists of a lent configuration space: the chain of one of three lists, or what broke in it, and where.
// `walk` answers for every list, space and room. It follows at most the list's maximum of pointers, each of a chain that ends only once, and nothing
// scans the space. A refusal leaves the room as it was lent.
ghost use Rattle.std.specs.Prelude.{◌≡◌, ◌≤◌, ◌<◌, length};
ghost use Rattle.lists.specs.Table.{describe};
ghost use Rattle.lists.specs.Walks.{Walks, Roomy, Lists};
ghost use Rattle.lists.specs.Inner.{offset_of, last_of, Underway, Stops, Words, Onward, Told};

use answers::Refusal;
use chase::{Step, Stopped};
use table::{Compatible, Extended, List, Trusted};
pub use table::{COMPATIBLE_MAXIMUM, EXTENDED_MAXIMUM, TRUSTED_MAXIMUM};
use words::SPACE;

mod chase; // chase.rt: a chain is followed, a step at a time
mod marks; // marks.rt: where a list comes back for the first time
mod table; // table.rt: the three lists, as document 01 describes them

// The three lists.
#[derive(Clone, Copy)]
pub enum Kind {
    Compatible,
    Extended,
    Trusted,
}

// Why a list is not listed. The place, where the list is broken, is the offset of the structure that holds the pointer at fault, or 0 where the
// start itself is at fault, and 0 otherwise.
#[derive(Clone, Copy)]
pub struct Refused {
    pub refusal: Refusal,
    pub place: u16,
}

// A first log holds the longest compatible chain, and most others; a second holds the longest of all.
const SHORT: usize = COMPATIBLE_MAXIMUM;

const LONG: usize = TRUSTED_MAXIMUM;

// Lists the offsets of a list's headers in `room`, in order, and answers how many there are. Where a caller says which list, its walk alone is compiled
// into it.
#[inline(always)]
pub fn walk(kind: Kind, space: &[u8], room: &mut [u16]) -> Result<usize, Refused>
    ensures { Walks kind space.now room.old result room.new }
{
    match kind {
        Kind::Compatible => walk_list::<Compatible>(space, room),
        Kind::Extended => walk_list::<Extended>(space, room),
        Kind::Trusted => walk_list::<Trusted>(space, room),
    }
}

// The sizes are looked at first. From there on the space's is in its type; the room's depends on the list, and stands in three contracts (`Roomy`): a
// struct for the two would be no plainer.
fn walk_list<L: List>(space: &[u8], room: &mut [u16]) -> Result<usize, Refused>
    ensures { Walks L.kind space.now room.old result room.new }
{
    let Ok(space) = <&[u8; SPACE]>::try_from(space) else {
        return Err(Refused {
            refusal: Refusal::BadDescription,
            place: 0,
        });
    };
    if room.len() < L::maximum() {
        return Err(Refused {
            refusal: Refusal::NoRoom,
            place: 0,
        });
    }
    walk_short::<L>(space, room)
}

// The walk with a short log: a chain that ends in it is listed.
fn walk_short<L: List>(space: &[u8; SPACE], room: &mut [u16]) -> Result<usize, Refused>
    requires { Roomy L.kind room.old }
    ensures { Walks L.kind space.now room.old result room.new }
{
    let mut log = [0u16; SHORT];
    let start = table::first::<L>(space);
    match chase::chase::<L>(space, &mut log, 0, start) {
        Ok(count) => Ok(list(&log[..count], room)),
        Err(stopped) => go_on::<L>(space, &log, stopped, room),
    }
}

// The walk from where it stopped: with a long log where the short one was full and the list may be longer, and else it is broken.
fn go_on<L: List>(
    space: &[u8; SPACE],
    short: &[u16; SHORT],
    stopped: Stopped,
    room: &mut [u16],
) -> Result<usize, Refused>
    requires { Stops L.kind space.now short.now stopped.count (offset_of L.kind stopped.position) × Roomy L.kind room.old }
    ensures { Walks L.kind space.now room.old result room.new }
{
    let Stopped { count, position } = stopped;
    if count == SHORT && SHORT < L::maximum() {
        return walk_long::<L>(space, short, position, room);
    }
    Err(broken::<L>(&short[..count], position))
}

// The walk from where a short log was full: to the list's maximum.
fn walk_long<L: List>(
    space: &[u8; SPACE],
    short: &[u16; SHORT],
    position: usize,
    room: &mut [u16],
) -> Result<usize, Refused>
    requires { Underway L.kind space.now short.now 48 (offset_of L.kind position) × Roomy L.kind room.old × (48 < (describe L.kind).maximum) }
    ensures { Walks L.kind space.now room.old result room.new }
{
    let mut log = [0u16; LONG];
    log[..SHORT].copy_from_slice(short);
    let log = &mut log[..L::maximum()];
    match chase::chase::<L>(space, log, SHORT, position) {
        Ok(count) => Ok(list(&log[..count], room)),
        Err(stopped) => Err(broken::<L>(&log[..stopped.count], stopped.position)),
    }
}

// A chain is listed in the room.
fn list(chain: &[u16], room: &mut [u16]) -> usize
    requires { length chain.now ≤ length room.old }
    ensures { Lists chain.now room.old (Ok result) room.new }
{
    room[..chain.len()].copy_from_slice(chain);
    chain.len()
}

// What broke in a list, with these offsets passed and a pointer that it did not go on by: it is below the floor; or the list comes back, and is
// told where it does so first.
fn broken<L: List>(passed: &[u16], position: usize) -> Refused
    requires { Words passed.now × Onward (offset_of L.kind position) }
    ensures { Told (describe L.kind) passed.now (offset_of L.kind position) result }
{
    if let Step::Fault = chase::step_to::<L>(position) {
        return Refused {
            refusal: Refusal::BelowFloor,
            place: last(passed),
        };
    }
    let index = marks::first_again(passed);
    Refused {
        refusal: Refusal::ComesBack,
        place: last(&passed[..index]),
    }
}

// The last of some offsets, or 0 where there are none.
fn last(log: &[u16]) -> u16
    ensures { result ≡ last_of log.now (length log.now) }
{
    log.last().copied().unwrap_or(0)
}
