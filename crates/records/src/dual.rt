// What a Dual-BDF record requires, and its fields, by shift and mask.
ghost use Rattle.std.specs.Prelude.{◌≡◌, true, ◌≤◌, ◌<◌};
ghost use Rattle.words.specs.Fields.{bits};
ghost use Rattle.records.specs.DualRule.{fits_dual, is_dual, known_pair, one_set, alternate_of};

use crate::Alternate;

pub(crate) const VENDOR_SPECIFIC: u8 = 0x09;

// The length of the record, which both its capability and its DVSEC say, and where the last may end.
const LENGTH: u8 = 0x0c;

const END: usize = 0x100;

#[tactic(auto, unfolding(crate::specs::DualRule::fits_dual))]
pub(crate) fn fits_dual(at: usize, capability: u8, second: u32) -> bool
    requires { at ≤ 0x0fc }
    ensures { result ≡ fits_dual at capability second }
{
    at + LENGTH as usize <= END && capability == LENGTH && second >> 20 == LENGTH as u32
}

#[tactic(auto, unfolding(crate::specs::DualRule::is_dual))]
pub(crate) fn is_dual(second: u32, third: u32) -> bool
    ensures { result ≡ is_dual second third }
{
    (second >> 16) & 0xf == 0 && known_pair(second & 0xffff, third & 0xffff)
}

// A vendor, and the ID with which it writes such a record. (Looked up and compared once, so that no branch hangs on which of the two vendors it is; for
// another vendor a number is looked up that no ID is.)
#[tactic(auto, unfolding(crate::specs::DualRule::known_pair))]
fn known_pair(vendor: u32, id: u32) -> bool
    requires { id < 0x10000 }
    ensures { result ≡ known_pair vendor id }
{
    let wanted = match vendor {
        0x8086 => 0x0009,
        0x1ec0 => 0x0002,
        _ => 0x10000,
    };
    id == wanted
}

// A bit for each of eight functions.
pub(crate) fn vector_of(third: u32) -> u8
    ensures { result ≡ bits 23 16 third }
{
    third.to_le_bytes()[2]
}

pub(crate) fn alternate_of(third: u32, vector: u8) -> Alternate
    requires { one_set vector ≡ true }
    ensures { result ≡ alternate_of third vector }
{
    Alternate {
        function: vector.trailing_zeros() as u8,
        device: third.to_le_bytes()[3] & 0x1f,
    }
}
