#![tactic(auto)]
// What hosts of a switch's multicast link, in the same archive as the rest: the entries of multicast with plain numbers.
// Each function answers for every input and keeps nothing; what it promises is in specs/, over the promises of the entries that it calls.
// A slice is a pointer and a length. Where the length is 0 the pointer is not followed. A record is seven numbers of 64 bits, one after the other.
ghost use Rattle.std.specs.Prelude.{◌≡◌};
ghost use Rattle.offload.specs.Judges.{HostReads, told_judged, HostJudges};

use answers::Refusal;
use multicast::{Judged, Record};

// What becomes of a packet: the verdict is 0 where the number says that it is refused, 1 no hit, 2 dropped, 3 leaves.
#[repr(C)]
#[derive(Clone, Copy, Default)]
pub struct HostJudged {
    pub ports: u32,
    pub number: u8,
    pub verdict: u8,
    pub group: u8,
}

// The seven numbers are written, with 0 for each where refused; the number comes back.
#[unsafe(no_mangle)]
pub extern "C" fn thawribbon_multicast(space: &[u8], at: usize, groups: &mut Record) -> u8
    ensures { HostReads space.now at groups.old result groups.new }
{
    let read = multicast::read(space, at);
    *groups = read.unwrap_or_default();
    answers::number(&read)
}

impl From<Result<Judged, Refusal>> for HostJudged {
    ghost from_gives = { λ judged host. host ≡ told_judged judged };

    fn from(judged: Result<Judged, Refusal>) -> HostJudged {
        match judged {
            Ok(Judged::NoHit) => HostJudged {
                verdict: 1,
                ..HostJudged::default()
            },
            Ok(Judged::Dropped { group }) => HostJudged {
                verdict: 2,
                group,
                ..HostJudged::default()
            },
            Ok(Judged::Leaves { group, ports }) => HostJudged {
                ports,
                number: 0,
                verdict: 3,
                group,
            },
            Err(refusal) => HostJudged {
                number: refusal.number(),
                ..HostJudged::default()
            },
        }
    }
}

#[unsafe(no_mangle)]
pub extern "C" fn thawribbon_judge(ports: &[Record], entering: usize, address: u64) -> HostJudged
    ensures { HostJudges ports.now entering address result }
{
    HostJudged::from(multicast::judge(ports, entering, address))
}
