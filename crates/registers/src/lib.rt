#![tactic(auto)]
// What a write leaves of four register bytes under four byte enables, and what a read shows of them whatever the enables.
// Enable bit 0 is the byte at the lowest address. Promised for every value: specs/Merge.antt and specs/Shown.antt.
ghost use Rattle.std.specs.Prelude.{◌≡◌};
ghost use Rattle.registers.specs.Merge.{merged_byte, merged};
ghost use Rattle.registers.specs.Inner.{enabled_bytes, UnderMask};
ghost use Rattle.registers.specs.Shown.{shown};

// The data bit where the rule bit is 1, the old bit where it is 0; then 0 where the mark and the data bit are 1.
#[tactic(auto, using(crate::proofs::Masks::masks_merge))]
fn merge_byte(old: u8, rule: u8, mark: u8, new: u8) -> u8
    ensures { result ≡ merged_byte old rule mark new }
{
    ((old & !rule) | (new & rule)) & !(new & mark)
}

// FFh for each of the four bytes that is enabled, 00h for each that is not. Of four copies of the enables, each seven bits above the
// one before, the k-th has enable bit k at bit 8k; 255 times that bit fills its byte.
fn enabled_bytes(enables: u8) -> [u8; 4]
    ensures { result ≡ enabled_bytes enables }
{
    let copies = (enables as u32 % 16) * 0x0020_4081;
    let mask = (copies & 0x0101_0101) * 255;
    mask.to_le_bytes()
}

// A byte after a write, under the mask of its enable: without it, no bit is writable and none is marked.
fn write_byte(mask: u8, old: u8, rule: u8, mark: u8, new: u8) -> u8
    ensures { UnderMask mask old rule mark new result }
{
    merge_byte(old, rule & mask, mark & mask, new)
}

// Four bytes after a write.
pub fn merge(old: [u8; 4], rules: [u8; 4], marks: [u8; 4], new: [u8; 4], enables: u8) -> [u8; 4]
    ensures { result ≡ merged old rules marks new enables }
{
    let mask = enabled_bytes(enables);
    [
        write_byte(mask[0], old[0], rules[0], marks[0], new[0]),
        write_byte(mask[1], old[1], rules[1], marks[1], new[1]),
        write_byte(mask[2], old[2], rules[2], marks[2], new[2]),
        write_byte(mask[3], old[3], rules[3], marks[3], new[3]),
    ]
}

// Four bytes as a read returns them: all of them.
#[tactic(auto, unfolding(crate::specs::Shown::shown))]
pub fn show(bytes: [u8; 4]) -> [u8; 4]
    ensures { result ≡ shown bytes }
{
    bytes
}
