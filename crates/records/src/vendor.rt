// What a DVSEC record requires, and its fields, by shift and mask.
ghost use Rattle.std.specs.Prelude.{◌≡◌, ◌≤◌, ◌<◌};
ghost use Rattle.records.specs.DvsecRule.{is_dvsec, extends, header_of};

use crate::{BODY, DvsecHeader};

const DVSEC: u32 = 0x0023;

const VERSION: u32 = 0x1;

#[tactic(auto, unfolding(crate::specs::DvsecRule::is_dvsec))]
pub(crate) fn is_dvsec(header: u32) -> bool
    ensures { result ≡ is_dvsec header }
{
    header & 0xffff == DVSEC && (header >> 16) & 0xf == VERSION
}

// The record and its body lie in the space.
#[tactic(auto, unfolding(crate::specs::DvsecRule::extends))]
pub(crate) fn extends(at: usize, length: usize) -> bool
    requires { (at ≤ 0xffc) × (length < 0x1000) }
    ensures { result ≡ extends at length }
{
    at + BODY <= words::SPACE && BODY <= length && at + length <= words::SPACE
}

pub(crate) fn header_of(first: u32, second: u32) -> DvsecHeader
    ensures { result ≡ header_of first second }
{
    let [vendor_low, vendor_high, revision, _] = first.to_le_bytes();
    let [id_low, id_high, _, _] = second.to_le_bytes();
    DvsecHeader {
        vendor: u16::from_le_bytes([vendor_low, vendor_high]),
        revision: revision & 0xf,
        id: u16::from_le_bytes([id_low, id_high]),
        length: (first >> 20) as u16,
    }
}
