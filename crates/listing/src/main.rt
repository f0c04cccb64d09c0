#![tactic(auto)]
// Lists the capabilities of a configuration space on standard input, as document 01 says.
// The text is `report::listing`'s, whose promise says its bytes; no contract can say what a program reads or writes.
// It reads and writes by the kit's `io`: std's would have this program assume `rattle_errno` too, and reads a short input only on a heap.

// The file descriptors of the three standard streams.
const STANDARD_INPUT: i32 = 0;

const STANDARD_OUTPUT: i32 = 1;

const STANDARD_ERROR: i32 = 2;

// A space and one byte more, so that a longer input is seen without being read to its end.
const INPUT: usize = 4097;

fn main() {
    let mut input = [0u8; INPUT];
    let mut text = [0u8; report::LONGEST];
    let read = io::read_full(STANDARD_INPUT, &mut input);
    let length = report::listing(&input[..read], &mut text);
    if !io::write_all(STANDARD_OUTPUT, &text[..length]) {
        io::write_all(
            STANDARD_ERROR,
            b"listing: standard output does not take it\n",
        );
    }
}
