// The numbers of a record by shift and mask, and which of them do not go together.
ghost use Rattle.std.specs.Prelude.{◌≡◌};
ghost use Rattle.multicast.specs.Capability.{is_multicast, record_of, clashes};
ghost use Rattle.multicast.specs.Records.{is_record};

use crate::Record;

const MULTICAST: u32 = 0x0012;

const VERSION: u32 = 0x1;

// A field of six bits.
const SIX_BITS: u64 = 0x3f;

// The base address's bits, and those below.
const BASE_BITS: u64 = 0xffff_ffff_ffff_f000;

const BELOW_BASE: u64 = 0xfff;

// The least index while enabled.
const LEAST_INDEX: u64 = 12;

// (In `records` a line like this one asks for a DVSEC. One function for both would be a public one, with ID and version for arguments, and no shorter to call.)
#[tactic(auto, unfolding(crate::specs::Capability::is_multicast))]
pub(crate) fn is_multicast(header: u32) -> bool
    ensures { result ≡ is_multicast header }
{
    header & 0xffff == MULTICAST && (header >> 16) & 0xf == VERSION
}

// The registers at +4 and +6, of 16 bits, and those at +8, +10h and +18h, of 64.
pub(crate) fn record_of(
    maximum: u16,
    control: u16,
    window: u64,
    receive: u64,
    block_all: u64,
) -> Record
    ensures { result ≡ record_of maximum control window receive block_all }
{
    Record {
        max_group: (maximum & 0x3f) as u64,
        num_group: (control & 0x3f) as u64,
        enable: (control >> 15) as u64,
        index: window & SIX_BITS,
        base: window & BASE_BITS,
        receive,
        block_all,
    }
}

impl Record {
    // Num Group over Max Group, or an index under 12 while enabled.
    #[tactic(auto, unfolding(crate::specs::Capability::clashes))]
    pub(crate) fn clashes(&self) -> bool
        ensures { result ≡ clashes self.now }
    {
        self.max_group < self.num_group || self.enable != 0 && self.index < LEAST_INDEX
    }

    // Whether some space has a capability with this record.
    #[tactic(auto, unfolding(crate::specs::Records::is_record))]
    pub(crate) fn is_record(&self) -> bool
        ensures { result ≡ is_record self.now }
    {
        self.max_group <= SIX_BITS
            && self.enable <= 1
            && self.index <= SIX_BITS
            && self.base & BELOW_BASE == 0
            && !self.clashes()
    }
}
