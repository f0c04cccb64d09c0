// The records of a space that a host lends. A body is told by its place in the space, since a host gets no slice back.
ghost use Rattle.std.specs.Prelude.{◌≡◌};
ghost use Rattle.records.specs.DvsecRule.{dvsec_says};
ghost use Rattle.records.specs.DualRule.{dual_says};
ghost use Rattle.thawribbon.specs.Records.{told_dvsec, told_dual, body_part};

use super::{HostAlternate, HostDvsec, HostPart};

#[unsafe(no_mangle)]
pub extern "C" fn thawribbon_dvsec(space: &[u8], at: usize) -> HostDvsec
    ensures { result ≡ told_dvsec (dvsec_says space.now at) }
{
    match records::dvsec(space, at) {
        Ok(header) => HostDvsec {
            number: 0,
            revision: header.revision,
            vendor: header.vendor,
            id: header.id,
            length: header.length,
        },
        Err(refusal) => HostDvsec {
            number: refusal.number(),
            revision: 0,
            vendor: 0,
            id: 0,
            length: 0,
        },
    }
}

#[unsafe(no_mangle)]
pub extern "C" fn thawribbon_dvsec_body(space: &[u8], at: usize) -> HostPart
    ensures { result ≡ body_part space.now at }
{
    let Ok(header) = records::dvsec(space, at) else {
        return HostPart {
            start: 0,
            length: 0,
        };
    };
    let length = header.length as usize;
    HostPart {
        start: at + records::BODY,
        length: length - records::BODY,
    }
}

#[unsafe(no_mangle)]
pub extern "C" fn thawribbon_dual_bdf(space: &[u8], at: usize) -> HostAlternate
    ensures { result ≡ told_dual (dual_says space.now at) }
{
    match records::dual_bdf(space, at) {
        Ok(alternate) => HostAlternate {
            number: 0,
            function: alternate.function,
            device: alternate.device,
        },
        Err(refusal) => HostAlternate {
            number: refusal.number(),
            function: 0,
            device: 0,
        },
    }
}
