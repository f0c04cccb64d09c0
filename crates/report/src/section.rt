// One list of a space: its name and count with a line for each header, or its name, and what broke and where.
ghost use Rattle.std.specs.Prelude.{◌≡◌, ◌++◌, ◌≤◌, length};
ghost use Rattle.answers.specs.Numbers.{number_of};
ghost use Rattle.report.specs.Text.{line};
ghost use Rattle.report.specs.Listing.{compatible_entry, extended_entry, heading, refused_at, entries, Part};
ghost use Rattle.report.specs.Inner.{kind_of, style, width, most, Added, Told, Fits, Ready, Chained};

use crate::text::{Text, hex_digit};
use lists::{EXTENDED_MAXIMUM, Kind, Refused};

// The lists that are shown.
#[derive(Clone, Copy)]
pub(crate) enum Section {
    Compatible,
    Extended,
}

impl From<Section> for Kind {
    fn from(section: Section) -> Kind
        ensures { result ≡ kind_of section }
    {
        match section {
            Section::Compatible => Kind::Compatible,
            Section::Extended => Kind::Extended,
        }
    }
}

impl Section {
    fn name(self) -> &'static [u8]
        ensures { result.now ≡ (style self).name }
    {
        match self {
            Section::Compatible => b"compatible",
            Section::Extended => b"extended",
        }
    }

    // The line of the header at an offset.
    fn entry(self, space: &[u8; words::SPACE], at: usize, text: &mut Text)
        requires { (at ≤ 0xffc) × Fits (width self) text.old }
        ensures same_reference { text.new.bytes.ghost_name ≡ text.old.bytes.ghost_name }
        ensures written { Added (line ((style self).entry space.now at)) text.old text.new }
    {
        match self {
            Section::Compatible => compatible_entry(space, at, text),
            Section::Extended => extended_entry(space, at, text),
        }
    }

    // A line for each offset.
    fn entries(self, space: &[u8; words::SPACE], offsets: &[u16], text: &mut Text)
        requires { Ready self space.now offsets.now text.old }
        ensures same_reference { text.new.bytes.ghost_name ≡ text.old.bytes.ghost_name }
        ensures written { Added (entries (style self) space.now offsets.now) text.old text.new }
    {
        for &at in offsets {
            self.entry(space, at as usize, text);
        }
    }

    // A list with a legal chain: its count, and its headers.
    fn listed(self, space: &[u8; words::SPACE], offsets: &[u16], text: &mut Text)
        requires { Chained self space.now offsets.now text.old }
        ensures same_reference { text.new.bytes.ghost_name ≡ text.old.bytes.ghost_name }
        ensures written { Added (heading (style self).name (length offsets.now) ++ entries (style self) space.now offsets.now) text.old text.new }
    {
        text.append(self.name());
        text.numbered(offsets.len(), b"\n");
        self.entries(space, offsets, text);
    }

    // A list without one.
    fn broken(self, refused: Refused, text: &mut Text)
        requires { Fits 27 text.old }
        ensures same_reference { text.new.bytes.ghost_name ≡ text.old.bytes.ghost_name }
        ensures written { Added (refused_at (style self).name (number_of refused.refusal) refused.place) text.old text.new }
    {
        text.append(self.name());
        text.refused_at(refused.refusal, refused.place as usize);
    }

    // The list of a space.
    pub(crate) fn write(self, space: &[u8; words::SPACE], text: &mut Text)
        requires { Fits (most self) text.old }
        ensures same_reference { text.new.bytes.ghost_name ≡ text.old.bytes.ghost_name }
        ensures written { Told (Part (style self) space.now) (most self) text.old text.new }
    {
        let mut room = [0u16; EXTENDED_MAXIMUM];
        match lists::walk(Kind::from(self), space, &mut room) {
            Ok(count) => self.listed(space, &room[..count], text),
            Err(refused) => self.broken(refused, text),
        }
    }
}

// The offset and the ID.
fn compatible_entry(space: &[u8; words::SPACE], at: usize, text: &mut Text)
    requires { (at ≤ 0xffc) × Fits 7 text.old }
    ensures same_reference { text.new.bytes.ghost_name ≡ text.old.bytes.ghost_name }
    ensures written { Added (line (compatible_entry space.now at)) text.old text.new }
{
    let id = space[at] as usize;
    text.append(&[
        hex_digit(at >> 8),
        hex_digit(at >> 4),
        hex_digit(at),
        b' ',
        hex_digit(id >> 4),
        hex_digit(id),
        b'\n',
    ]);
}

// The offset, the ID and the version.
fn extended_entry(space: &[u8; words::SPACE], at: usize, text: &mut Text)
    requires { (at ≤ 0xffc) × Fits 11 text.old }
    ensures same_reference { text.new.bytes.ghost_name ≡ text.old.bytes.ghost_name }
    ensures written { Added (line (extended_entry space.now at)) text.old text.new }
{
    let header = words::word(space, at) as usize;
    text.append(&[
        hex_digit(at >> 8),
        hex_digit(at >> 4),
        hex_digit(at),
        b' ',
        hex_digit(header >> 12),
        hex_digit(header >> 8),
        hex_digit(header >> 4),
        hex_digit(header),
        b' ',
        hex_digit(header >> 16),
        b'\n',
    ]);
}
