// Header fields by shift and mask, each from the bytes that hold it.
ghost use Rattle.std.specs.Prelude.{◌≡◌, eqb};
ghost use Rattle.packet.specs.Fields.{type_code, refuses_bit7, type_of, poison, first_enables, device_of, function_of, length_field, offset_of, wrong_field, whole_length};

use super::{Access, Target};

// The type codes of document 01.
const READ_TYPE_0: u8 = 0x04;

const WRITE_TYPE_0: u8 = 0x44;

const READ_TYPE_1: u8 = 0x05;

const WRITE_TYPE_1: u8 = 0x45;

const READ_TRUSTED: u8 = 0x1b;

const WRITE_TRUSTED: u8 = 0x5b;

// Whether an edition refuses a packet for bit 7 of its byte 0: the second does where it is set, and the first ignores it.
pub(super) fn refuses_bit_7(edition: u32, first: u8) -> bool
    ensures { result ≡ refuses_bit7 edition first }
{
    edition == super::EDITION_2 && (first >> 7) & 1 == 1
}

pub(super) fn type_code(first: u8) -> u8
    ensures { result ≡ type_code first }
{
    first & 0x7f
}

// What one of the six type codes stands for. No code has bit 7.
#[tactic(auto, unfolding(crate::specs::Fields::type_of))]
pub fn type_of(code: u8) -> Option<Access>
    ensures { result ≡ type_of code }
{
    let (writes, target) = match code {
        READ_TYPE_0 => (false, Target::Type0),
        WRITE_TYPE_0 => (true, Target::Type0),
        READ_TYPE_1 => (false, Target::Type1),
        WRITE_TYPE_1 => (true, Target::Type1),
        READ_TRUSTED => (false, Target::Trusted),
        WRITE_TRUSTED => (true, Target::Trusted),
        _ => return None,
    };
    Some(Access { writes, target })
}

pub(super) fn whole_length(writes: bool, two: u8) -> usize
    ensures { result ≡ whole_length writes two }
{
    12 + 4 * usize::from(writes) + 4 * usize::from(two >> 7)
}

pub(super) fn is_poisoned(two: u8) -> bool
    ensures { result ≡ eqb (poison two) 1 }
{
    (two >> 6) & 1 == 1
}

pub(super) fn first_enables(seven: u8) -> u8
    ensures { result ≡ first_enables seven }
{
    seven & 0x0f
}

pub(super) fn device_of(nine: u8) -> u8
    ensures { result ≡ device_of nine }
{
    (nine >> 3) & 0x1f
}

pub(super) fn function_of(nine: u8) -> u8
    ensures { result ≡ function_of nine }
{
    nine & 0x07
}

pub(super) fn offset_of(ten: u8, eleven: u8) -> usize
    ensures { result ≡ offset_of ten eleven }
{
    usize::from(u16::from_be_bytes([ten & 0x0f, eleven & 0xfc]))
}

fn length_field(two: u8, three: u8) -> u16
    ensures { result ≡ length_field two three }
{
    u16::from_be_bytes([two & 0x03, three])
}

// TC, Attr or the last enables are not 0, or Length is not 1.
pub(super) fn wrong_field(one: u8, two: u8, three: u8, seven: u8) -> bool
    ensures { result ≡ wrong_field one two three seven }
{
    (one >> 4) & 0x07 != 0
        || (two >> 4) & 0x03 != 0
        || (seven >> 4) & 0x0f != 0
        || length_field(two, three) != 1
}
