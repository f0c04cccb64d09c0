#![tactic(auto)]
// What a test host links, in C or Rust: the entries of `asking`, with plain numbers in the place of enums. What they promise for every input is
// specs/Asks.antt. A slice is a pointer and a length; where the length is 0 the pointer is not followed. No struct has more than 16 bytes.
// It is a crate of its own, so that a test host links it without a board (docs/DECISIONS.md, 41).
ghost use Rattle.std.specs.Prelude.{◌≡◌};
ghost use Rattle.tester.specs.Asks.{parts_by, told_written, told_completion, told_heard, HostWrites, HostReads};

use answers::Refusal;
use asking::{Completion, Parts, Said};
use packet::Id;

// The parts of a request, with the data, which is ignored for a read.
#[repr(C)]
#[derive(Clone, Copy)]
pub struct HostParts {
    pub offset: u32,
    pub kind: u8,
    pub requester: Id,
    pub tag: u8,
    pub bus: u8,
    pub device: u8,
    pub function: u8,
    pub enables: u8,
    pub data: [u8; 4],
}

#[repr(C)]
#[derive(Clone, Copy)]
pub struct HostWritten {
    pub length: usize,
    pub number: u8,
}

// What a completion says: 0 nothing, since it is refused; 1 success, with the data; 2 success without data; 3 UR. Bytes that it does not have are 0.
// (C has no enum with values.)
#[repr(C)]
#[derive(Clone, Copy, Default)]
pub struct HostHeard {
    pub number: u8,
    pub said: u8,
    pub completer: Id,
    pub requester: Id,
    pub tag: u8,
    pub data: [u8; 4],
}

impl From<HostParts> for Parts {
    ghost from_gives = { λ host parts. parts ≡ parts_by host };

    fn from(host: HostParts) -> Parts {
        Parts {
            kind: host.kind,
            requester: host.requester,
            tag: host.tag,
            bus: host.bus,
            device: host.device,
            function: host.function,
            offset: host.offset as usize,
            enables: host.enables,
        }
    }
}

impl From<Result<usize, Refusal>> for HostWritten {
    ghost from_gives = { λ written told. told ≡ told_written written };

    fn from(written: Result<usize, Refusal>) -> HostWritten {
        HostWritten {
            length: written.unwrap_or(0),
            number: answers::number(&written),
        }
    }
}

impl From<Completion> for HostHeard {
    ghost from_gives = { λ completion told. told ≡ told_completion completion };

    #[tactic(auto, unfolding(crate::specs::Asks::told_fields))]
    fn from(completion: Completion) -> HostHeard {
        let told = HostHeard {
            number: 0,
            said: 0,
            completer: completion.completer,
            requester: completion.requester,
            tag: completion.tag,
            data: [0; 4],
        };
        match completion.said {
            Said::Shown(data) => HostHeard {
                said: 1,
                data,
                ..told
            },
            Said::Done => HostHeard { said: 2, ..told },
            Said::Unsupported => HostHeard { said: 3, ..told },
        }
    }
}

impl From<Result<Completion, Refusal>> for HostHeard {
    ghost from_gives = { λ heard told. told ≡ told_heard heard };

    #[tactic(auto, unfolding(crate::specs::Asks::nothing_heard))]
    fn from(heard: Result<Completion, Refusal>) -> HostHeard {
        match heard {
            Ok(completion) => HostHeard::from(completion),
            Err(refusal) => HostHeard {
                number: refusal.number(),
                ..HostHeard::default()
            },
        }
    }
}

#[unsafe(no_mangle)]
pub extern "C" fn thawribbon_write_request(parts: HostParts, buffer: &mut [u8]) -> HostWritten
    ensures { HostWrites parts buffer.old result buffer.new }
{
    HostWritten::from(asking::write_request(Parts::from(parts), parts.data, buffer))
}

#[unsafe(no_mangle)]
pub extern "C" fn thawribbon_read_completion(completion: &[u8]) -> HostHeard
    ensures { HostReads completion.now result }
{
    HostHeard::from(asking::read_completion(completion))
}
