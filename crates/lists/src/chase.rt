// A chain is followed, a step at a time, and each offset is logged, until the chain ends, a pointer is at fault, or the log is full.
ghost use Rattle.std.specs.Prelude.{◌≡◌, ◌⊎◌, ◌≤◌, ◌<◌};
ghost use Rattle.lists.specs.Table.{describe};
ghost use Rattle.lists.specs.Inner.{offset_of, Leads, Underway, Chases};

use crate::table::{self, List};
use words::SPACE;

// Where a pointer leads: "the next offset, the end, or a fault". A Result of an Option is no plainer than the three.
#[derive(Clone, Copy)]
pub(crate) enum Step {
    Next(usize),
    End,
    Fault,
}

// Where a chase stopped, with so many offsets logged: at a position that is below the floor or was passed before, or for which the log has no room.
#[derive(Clone, Copy)]
pub(crate) struct Stopped {
    pub(crate) count: usize,
    pub(crate) position: usize,
}

pub(crate) fn step_to<L: List>(position: usize) -> Step
    requires { offset_of L.kind position ≤ 0xffc }
    ensures { Leads (describe L.kind) (offset_of L.kind position) result }
{
    let pointer = L::offset(position);
    if pointer == 0 {
        return Step::End;
    }
    if pointer < L::floor() {
        return Step::Fault;
    }
    Step::Next(pointer)
}

// Which position waits for the chase to come by again: the one that was passed last, after 1, 2, 4, 8 .. of them, and else the one that waits.
fn moved_up(waiting: usize, last: usize, count: usize) -> usize
    requires { 0 < count }
    ensures { (result ≡ waiting) ⊎ (result ≡ last) }
{
    if count.is_power_of_two() {
        last
    } else {
        waiting
    }
}

// Goes on from a position with `passed` offsets in the log, and answers how many there are at the chain's end. What is carried is a position: a word's
// number, from which the next header is loaded without another step between, and in the compatible list the offset of the byte before its pointer. A list
// that goes round comes by the position that waits, so that a short round is noticed early; a chain that ends pays two comparisons a header for it, and no
// mark. No `for` over the log: a chain may end where it is full. No Vec for the log and its count: there is no heap.
#[tactic(auto, using(crate::proofs::Following::chase_ends))]
pub(crate) fn chase<L: List>(
    space: &[u8; SPACE],
    log: &mut [u16],
    passed: usize,
    from: usize,
) -> Result<usize, Stopped>
    requires { Underway L.kind space.now log.old passed (offset_of L.kind from) }
    ensures { Chases L.kind space.now result log.new }
{
    let mut count = passed;
    let mut position = from;
    let mut waiting = 0;
    loop {
        let Step::Next(at) = step_to::<L>(position) else {
            // The end is at position 0. With another look at the step, `if let Step::End`, each step of a long list took half as long again.
            if position == 0 {
                return Ok(count);
            }
            return Err(Stopped { count, position });
        };
        if position == waiting || count == log.len() {
            return Err(Stopped { count, position });
        }
        log[count] = at as u16;
        count += 1;
        waiting = moved_up(waiting, position, count);
        position = table::follow::<L>(space, position);
    }
}
