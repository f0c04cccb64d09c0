// The three lists of a space that a host lends.
ghost use Rattle.lists.specs.declared.Kind.TheVariants.{Compatible, Extended, Trusted};
ghost use Rattle.thawribbon.specs.Walks.{HostWalks};

use super::HostWalked;
use lists::{Kind, Refused};

impl From<Result<usize, Refused>> for HostWalked {
    ghost use Rattle.std.specs.Prelude.{◌≡◌};
    ghost use Rattle.thawribbon.specs.Walks.{told_walk};

    ghost from_gives = { λ walked told. told ≡ told_walk walked };

    fn from(walked: Result<usize, Refused>) -> HostWalked {
        match walked {
            Ok(count) => HostWalked {
                count,
                number: 0,
                place: 0,
            },
            Err(refused) => HostWalked {
                count: 0,
                number: refused.refusal.number(),
                place: refused.place,
            },
        }
    }
}

#[unsafe(no_mangle)]
pub extern "C" fn thawribbon_walk_compatible(space: &[u8], room: &mut [u16]) -> HostWalked
    ensures { HostWalks Compatible space.now room.old result room.new }
{
    HostWalked::from(lists::walk(Kind::Compatible, space, room))
}

#[unsafe(no_mangle)]
pub extern "C" fn thawribbon_walk_extended(space: &[u8], room: &mut [u16]) -> HostWalked
    ensures { HostWalks Extended space.now room.old result room.new }
{
    HostWalked::from(lists::walk(Kind::Extended, space, room))
}

#[unsafe(no_mangle)]
pub extern "C" fn thawribbon_walk_trusted(space: &[u8], room: &mut [u16]) -> HostWalked
    ensures { HostWalks Trusted space.now room.old result room.new }
{
    HostWalked::from(lists::walk(Kind::Trusted, space, room))
}
