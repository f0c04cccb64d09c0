// The writer: the headers of a layout that the checker accepts, put into a lent space. Nothing is written before it has accepted.
ghost use Rattle.std.specs.Prelude.{◌≡◌, ◌≤◌};
ghost use Rattle.layout.specs.Laying.{four_of, header_word, Writes};
ghost use Rattle.layout.specs.Inner.{laid, MayBeLaid};

use super::{Structure, checking};
use answers::Refusal;

// Writes the header of each structure at its offset: its ID, its version, and a pointer to the next one, which is 0 in the last.
pub fn write(structures: &[Structure], offsets: &[u16], space: &mut [u8]) -> Result<(), Refusal>
    ensures { Writes structures.now offsets.now space.old result space.new }
{
    if space.len() != words::SPACE {
        return Err(Refusal::BadDescription);
    }
    checking::check(structures, offsets)?;
    put_headers(structures, offsets, space);
    Ok(())
}

impl Structure {
    // The bytes of its header: ID 15:0, version 19:16, next 31:20.
    fn header(self, next: u16) -> [u8; 4]
        requires { (self.version ≤ 15) × (next ≤ 0xfff) }
        ensures { result ≡ four_of (header_word self next) }
    {
        let word = u32::from(next) << 20 | u32::from(self.version) << 16 | u32::from(self.id);
        word.to_le_bytes()
    }
}

// From the last to the first, so that each knows the one behind it.
fn put_headers(structures: &[Structure], offsets: &[u16], space: &mut [u8])
    requires { MayBeLaid structures.now offsets.now space.old }
    ensures { space.new ≡ laid structures.now offsets.now space.old }
{
    let mut next = 0;
    for (structure, at) in structures.iter().rev().zip(offsets.iter().rev()) {
        words::put(space, usize::from(*at), &structure.header(next));
        next = *at;
    }
}
