#![tactic(auto)]
// For the benchmark, and in no archive that a host links: the merge of a write by itself, as the product has it (specs/Merges.antt).
ghost use Rattle.trials.specs.Merges.{Merges};

#[unsafe(no_mangle)]
pub extern "C" fn trial_merge(
    bytes: &mut [u8; 4],
    rules: &[u8; 4],
    marks: &[u8; 4],
    new: &[u8; 4],
    enables: u8,
)
    ensures { Merges bytes.old rules.now marks.now new.now enables bytes.new }
{
    *bytes = registers::merge(*bytes, *rules, *marks, *new, enables);
}
