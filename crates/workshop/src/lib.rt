#![tactic(auto)]
// What hosts that lay out new boards link, in the same archive as the rest: the entries of layout with plain numbers.
// Each function answers for every input and keeps nothing; what it promises is in specs/, over the promises of the entries that it calls.
// A slice is a pointer and a length. Where the length is 0 the pointer is not followed. A structure is three numbers of 16 bits, one after the other.
ghost use Rattle.workshop.specs.Lays.{HostPlans, HostChecks, HostWrites};

use layout::Structure;

// The offsets are put at the front of the room, one a structure; the number comes back.
#[unsafe(no_mangle)]
pub extern "C" fn thawribbon_plan_layout(structures: &[Structure], room: &mut [u16]) -> u8
    ensures { HostPlans structures.now room.old result room.new }
{
    answers::number(&layout::plan(structures, room))
}

#[unsafe(no_mangle)]
pub extern "C" fn thawribbon_check_layout(structures: &[Structure], offsets: &[u16]) -> u8
    ensures { HostChecks structures.now offsets.now result }
{
    answers::number(&layout::check(structures, offsets))
}

// The headers are put into the space, where the layout is accepted; the number comes back.
#[unsafe(no_mangle)]
pub extern "C" fn thawribbon_write_layout(
    structures: &[Structure],
    offsets: &[u16],
    space: &mut [u8],
) -> u8
    ensures { HostWrites structures.now offsets.now space.old result space.new }
{
    answers::number(&layout::write(structures, offsets, space))
}
