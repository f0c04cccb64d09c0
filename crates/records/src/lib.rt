#![tactic(auto)]
// Two records of a lent configuration space: a DVSEC record and a Dual-BDF record.
// Every function answers for every space and offset. A record that is refused tells why and nothing else, and has an empty body.
ghost use Rattle.std.specs.Prelude.{◌≡◌};
ghost use Rattle.records.specs.DvsecRule.{tells_dvsec, dvsec_says, BodyLies};
ghost use Rattle.records.specs.DualRule.{tells_dual, dual_says};
ghost use Rattle.records.specs.Inner.{Requires};

use answers::Refusal;

mod dual; // dual.rt: what a Dual-BDF record requires, and its fields
mod vendor; // vendor.rt: what a DVSEC record requires, and its fields

#[derive(Clone, Copy)]
pub struct DvsecHeader {
    pub vendor: u16,
    pub revision: u8,
    pub id: u16,
    pub length: u16,
}

// The alternate function of a Dual-BDF record, and its device number.
#[derive(Clone, Copy)]
pub struct Alternate {
    pub function: u8,
    pub device: u8,
}

// Where a record may be asked for.
const DVSEC_LOWEST: usize = 0x100;

const DVSEC_HIGHEST: usize = 0xffc;

// The last of these places with 0Ah bytes left.
const DVSEC_LAST: usize = 0xff4;

const DUAL_LOWEST: usize = 0x040;

const DUAL_HIGHEST: usize = 0x0fc;

// The register body of a DVSEC record begins there.
pub const BODY: usize = 0x0a;

// A fact that a record requires, or else a refusal.
fn required(fact: bool, otherwise: Refusal) -> Result<(), Refusal>
    ensures { Requires fact otherwise result }
{
    if fact { Ok(()) } else { Err(otherwise) }
}

// The header of the DVSEC record at an offset.
pub fn dvsec(space: &[u8], at: usize) -> Result<DvsecHeader, Refusal>
    ensures { tells_dvsec result ≡ dvsec_says space.now at }
{
    required(space.len() == words::SPACE, Refusal::BadDescription)?;
    let placed = words::placed(at, DVSEC_LOWEST, DVSEC_HIGHEST);
    required(placed, Refusal::BadDescription)?;
    let first = words::word(space, at);
    required(vendor::is_dvsec(first), Refusal::OtherStructure)?;
    // Asked before the two words are read, which are then known to be there; `extends` has the rule.
    required(at <= DVSEC_LAST, Refusal::WrongExtent)?;
    let header = vendor::header_of(words::word(space, at + 4), words::word(space, at + 8));
    let length = header.length as usize;
    required(vendor::extends(at, length), Refusal::WrongExtent)?;
    Ok(header)
}

// The register body of the DVSEC record at an offset, as it lies in the space, or an empty part of the space.
pub fn dvsec_body(space: &[u8], at: usize) -> &[u8]
    ensures { BodyLies space.entry.ref_ptr space.now at result.ref_ptr result.now }
{
    let Ok(header) = dvsec(space, at) else {
        return &space[..0];
    };
    let start = at + BODY;
    let end = at + header.length as usize;
    &space[start..end]
}

// The alternate function and the device of the Dual-BDF record at an offset.
pub fn dual_bdf(space: &[u8], at: usize) -> Result<Alternate, Refusal>
    ensures { tells_dual result ≡ dual_says space.now at }
{
    required(space.len() == words::SPACE, Refusal::BadDescription)?;
    let placed = words::placed(at, DUAL_LOWEST, DUAL_HIGHEST);
    required(placed, Refusal::BadDescription)?;
    required(space[at] == dual::VENDOR_SPECIFIC, Refusal::OtherStructure)?;
    let length = space[at + 2];
    let second = words::word(space, at + 4);
    required(dual::fits_dual(at, length, second), Refusal::WrongExtent)?;
    let third = words::word(space, at + 8);
    required(dual::is_dual(second, third), Refusal::OtherStructure)?;
    let vector = dual::vector_of(third);
    required(vector.count_ones() == 1, Refusal::NotOneFunction)?;
    Ok(dual::alternate_of(third, vector))
}
