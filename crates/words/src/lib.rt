#![tactic(auto)]
// Bytes of a lent space: four of them at an offset, as a little-endian word, and a run of bytes stored.
// Every function answers for every offset and length: four bytes that do not all lie in the space read as four zeros, and bytes that do
// not all lie in it are not stored.
ghost use Rattle.std.specs.Prelude.{◌≡◌};
ghost use Rattle.words.specs.Bytes.{four_or_zero, Puts};
ghost use Rattle.words.specs.Places.{placed};
ghost use Rattle.words.specs.Fields.{joined, word_or_zero};

// The size of a space, and of its rules.
pub const SPACE: usize = 0x1000;

// The four bytes at `at`, or four zeros where they do not all lie in `space`.
#[tactic(auto, unfolding(crate::specs::Bytes::four_or_zero))]
pub fn four(space: &[u8], at: usize) -> [u8; 4]
    ensures { result ≡ four_or_zero space.now at }
{
    if space.len() < 4 || space.len() - 4 < at {
        return [0; 4];
    }
    [space[at], space[at + 1], space[at + 2], space[at + 3]]
}

// The little-endian word that four bytes make, the lowest address first.
pub fn joined(first: u8, second: u8, third: u8, fourth: u8) -> u32
    ensures { result ≡ joined first second third fourth }
{
    u32::from_le_bytes([first, second, third, fourth])
}

// The little-endian word at `at`, or 0 where its four bytes do not all lie in `space`.
#[tactic(auto, unfolding(crate::specs::Bytes::four_or_zero, crate::specs::Fields::word_or_zero))]
pub fn word(space: &[u8], at: usize) -> u32
    ensures { result ≡ word_or_zero space.now at }
{
    u32::from_le_bytes(four(space, at))
}

// Whether an offset is a multiple of 4 from a lowest to a highest one.
#[tactic(auto, unfolding(crate::specs::Places::placed))]
pub fn placed(at: usize, low: usize, high: usize) -> bool
    ensures { result ≡ placed at low high }
{
    at % 4 == 0 && low <= at && at <= high
}

// Stores `bytes` at `at`, and says whether they fitted. Where they do not, nothing is stored.
pub fn put(space: &mut [u8], at: usize, bytes: &[u8]) -> bool
    ensures { Puts space.old at bytes.now result space.new }
{
    if space.len() < bytes.len() || space.len() - bytes.len() < at {
        return false;
    }
    space[at..at + bytes.len()].copy_from_slice(bytes);
    true
}
