// The structures of a new board, and the offsets that are proposed for them. They stay with another board, as the ports of the switch do.
use crate::bench::MOST_STRUCTURES;
use crate::faults::Wrong;
use crate::list::List;
use crate::tokens::Tokens;
use crate::walking::{ROOM, UNTOUCHED};
use layout::Structure;

pub type Structures = List<Structure, MOST_STRUCTURES>;

pub type Proposal = List<u16, ROOM>;

// A list in the place of the last one, three numbers for each structure.
pub fn put(structures: &mut Structures, numbers: Tokens) {
    let mut place = 0;
    structures.clear();
    for _ in 0..numbers.count() / 3 {
        structures.push(structure_at(numbers, place));
        place = place.wrapping_add(3);
    }
}

// So many structures more that are alike; where the list has no place for all of them, it stays.
pub fn put_more(structures: &mut Structures, numbers: Tokens) -> Result<(), Wrong> {
    if structures.left() < numbers.number(0) {
        return Err(Wrong::NoStructures);
    }
    for _ in 0..numbers.number(0) {
        structures.push(structure_at(numbers, 1));
    }
    Ok(())
}

// The three numbers from a place on, whether a structure may have them or not.
fn structure_at(numbers: Tokens, place: usize) -> Structure {
    let three = numbers.from(place);
    Structure {
        id: three.short(0),
        version: three.short(1),
        length: three.short(2),
    }
}

// A proposal in the place of the last one.
pub fn propose(numbers: Tokens) -> Proposal {
    let mut room = [UNTOUCHED; ROOM];
    numbers.fill_offsets(&mut room);
    List::of(room, numbers.count())
}

// One offset of a proposal.
pub fn propose_one(proposal: &mut Proposal, numbers: Tokens) -> Result<(), Wrong> {
    if proposal.set(numbers.number(0), numbers.short(1)) {
        Ok(())
    } else {
        Err(Wrong::NoOffset)
    }
}
