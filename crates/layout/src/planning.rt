// The planner: the lowest proposal that the checker accepts. Each structure stands at the first multiple of 4 behind the one before.
ghost use Rattle.std.specs.Prelude.{◌≡◌, true, ◌++◌, ◌≤◌, length, drop};
ghost use Rattle.layout.specs.Proposing.{Plans};
ghost use Rattle.layout.specs.Inner.{fits_from, packed_from};

use super::{START, Structure, structures};
use answers::Refusal;

// Puts a proposal at the front of the room, one offset a structure; the rest of the room stays.
pub fn plan(structures: &[Structure], room: &mut [u16]) -> Result<(), Refusal>
    ensures { Plans structures.now room.old result room.new }
{
    if structures::are_bad(structures) {
        return Err(Refusal::BadDescription);
    }
    if room.len() < structures.len() {
        return Err(Refusal::NoRoom);
    }
    if !fit(structures) {
        return Err(Refusal::NoLayout);
    }
    propose(structures, room);
    Ok(())
}

// Whether each ends by 1000h where it stands as low as it can.
fn fit(structures: &[Structure]) -> bool
    ensures { result ≡ fits_from 0x100 structures.now }
{
    let mut at = usize::from(START);
    for structure in structures {
        if words::SPACE < structure.ends_at(at) {
            return false;
        }
        at += structure.rounded_up();
    }
    true
}

// By places: over the room's `iter_mut`, a proof knows its length afterwards, and not what it holds.
fn propose(structures: &[Structure], room: &mut [u16])
    requires { (length structures.now ≤ length room.old) × (fits_from 0x100 structures.now ≡ true) }
    ensures { room.new ≡ packed_from 0x100 structures.now ++ drop (length structures.now) room.old }
{
    let mut at = usize::from(START);
    for (place, structure) in structures.iter().enumerate() {
        room[place] = at as u16;
        at += structure.rounded_up();
    }
}
