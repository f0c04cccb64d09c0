#![tactic(auto)]
// What the listing program writes, made as bytes in a lent text: the lines of the compatible and the extended list of a space.
// `listing` answers for every input, and its text has room for every listing. What it promises is specs/Prints.antt over specs/Listing.antt.
ghost use Rattle.std.specs.Prelude.{◌≡◌};
ghost use Rattle.report.specs.Text.{ascii};
ghost use Rattle.report.specs.Listing.{refused, Says};
ghost use Rattle.report.specs.Prints.{Prints};
ghost use Rattle.report.specs.Inner.{longest, Added, Told, Fits};

use answers::Refusal;
use lists::{COMPATIBLE_MAXIMUM, EXTENDED_MAXIMUM};
use section::Section;
use text::Text;

mod section; // section.rt: one list
mod text; // text.rt: bytes and numbers

// The longest listing: both headings, each list at its maximum with 7 and 11 bytes to a line, and the end.
pub const LONGEST: usize = 14 + COMPATIBLE_MAXIMUM * 7 + 13 + EXTENDED_MAXIMUM * 11 + 4;

// Writes the listing of an input at the start of a text, and answers its length.
pub fn listing(space: &[u8], text: &mut [u8; LONGEST]) -> usize
    ensures { Prints space.now text.old result text.new }
{
    let mut text = Text {
        bytes: text,
        place: 0,
    };
    match <&[u8; words::SPACE]>::try_from(space) {
        Ok(space) => parts(space, &mut text),
        Err(_) => other(&mut text),
    }
    text.place
}

// An input of another size.
fn other(text: &mut Text)
    requires { Fits longest text.old }
    ensures same_reference { text.new.bytes.ghost_name ≡ text.old.bytes.ghost_name }
    ensures written { Added (refused (ascii "input") 1) text.old text.new }
{
    text.append(b"input");
    text.refused(Refusal::BadDescription);
}

// A space: the compatible part, the extended part, and the end.
fn parts(space: &[u8; words::SPACE], text: &mut Text)
    requires { Fits longest text.old }
    ensures same_reference { text.new.bytes.ghost_name ≡ text.old.bytes.ghost_name }
    ensures written { Told (Says space.now) longest text.old text.new }
{
    Section::Compatible.write(space, text);
    Section::Extended.write(space, text);
    text.append(b"end\n");
}
