// Lists of many headers, put by hand.
use crate::boards::Function;
use crate::faults::Wrong;
use crate::spaces::Buffer;
use crate::tokens::Tokens;
use crate::vocabulary::Word;

// What a header of an extended or a trusted list says of itself that is put in this way.
const ID: usize = 0x000b;

const VERSION: usize = 1;

// So many headers of a list, the first at an offset and each other at the one before it with a step added. Each points to the next, and the last to a pointer
// of its own.
#[derive(Clone, Copy)]
struct Chain {
    is_short: bool,
    count: usize,
    first: usize,
    step: usize,
    last: usize,
}

impl Chain {
    fn offset(self, header: usize) -> usize {
        self.first.wrapping_add(header.wrapping_mul(self.step)) % 0x10000
    }

    // Where a header points to.
    fn next(self, header: usize) -> usize {
        if header.wrapping_add(1) < self.count {
            self.offset(header.wrapping_add(1))
        } else {
            self.last
        }
    }

    // Whether a header lies in its space, and can hold its pointer.
    fn fits(self, header: usize) -> bool {
        if self.is_short {
            self.offset(header) <= 0xfe && self.next(header) <= 0xff
        } else {
            self.offset(header) <= 0xffc && self.next(header) <= 0xfff
        }
    }

    fn all_fit(self) -> bool {
        (0..self.count).all(|header| self.fits(header))
    }

    fn put(self, space: &mut Buffer) {
        for header in 0..self.count {
            let offset = self.offset(header);
            let next = self.next(header);
            if self.is_short {
                space.put_at(offset, &[0x05, low(next)]);
            } else {
                put_long(space, offset, ID, VERSION, next);
            }
        }
    }
}

// Puts a chain. Where it does not fit, or has no header, nothing is put.
pub fn put_chain(function: &mut Function, tokens: Tokens) -> Result<(), Wrong> {
    let chain = Chain {
        is_short: tokens.is(1, Word::Compatible),
        count: tokens.number(2),
        first: tokens.number(3),
        step: tokens.number(4),
        last: tokens.number(5),
    };
    if chain.count == 0 || !chain.all_fit() {
        return Err(Wrong::NoChain);
    }
    if tokens.is(1, Word::Trusted) {
        chain.put(&mut function.trusted.bytes);
    } else {
        chain.put(&mut function.ordinary.bytes);
    }
    Ok(())
}

// ID 15:0, version 19:16, next 31:20.
pub fn put_long(space: &mut Buffer, offset: usize, id: usize, version: usize, next: usize) {
    space.put_at(
        offset,
        &[
            low(id),
            low(id >> 8),
            low(next) << 4 | low(version),
            low(next >> 4),
        ],
    );
}

fn low(number: usize) -> u8 {
    (number % 256) as u8
}
