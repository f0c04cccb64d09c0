// The fault-locating walk: over the offsets that a chase has passed, with a mark for each word of a space.
ghost use Rattle.lists.specs.Inner.{Words, FirstAgain};

const WORDS: usize = 1024;

// The index in a log of the first offset that stands before it already, or the log's length where there is none.
#[tactic(auto, using(crate::proofs::Marking::marked_more, crate::proofs::Marking::found_again, crate::proofs::Marking::none_again))]
pub(crate) fn first_again(log: &[u16]) -> usize
    requires { Words log.now }
    ensures { FirstAgain log.now result }
{
    let mut marks = [false; WORDS];
    for (index, at) in log.iter().enumerate() {
        let number = (*at >> 2) as usize;
        if marks[number] {
            return index;
        }
        marks[number] = true;
    }
    log.len()
}
