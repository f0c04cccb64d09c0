// Why an address hits no group, and why it is not judged at all: the first of the causes, in words.
use crate::say;
use multicast::{MOST_PORTS, Record};
use std::fmt::{self, Display, Formatter};

pub const REFUSED: &str =
    "badly described: too many records, no such port, or a record that no capability gives";

// Why no capability gives a record.
#[derive(Clone, Copy)]
enum Fault {
    MaxGroup,
    Enable,
    Index,
    Base,
    NumGroup,
    SmallWindow,
}

impl Display for Fault {
    fn fmt<W: fmt::Write>(&self, f: &mut Formatter<W>) -> fmt::Result {
        match self {
            Fault::MaxGroup => write!(f, "Max Group is over 3F"),
            Fault::Enable => write!(f, "Enable is neither 0 nor 1"),
            Fault::Index => write!(f, "the index is over 3F"),
            Fault::Base => write!(f, "the base is no multiple of 1000"),
            Fault::NumGroup => write!(f, "Num Group is over Max Group"),
            Fault::SmallWindow => write!(f, "the index is under C while enabled"),
        }
    }
}

pub fn tell_no_hit(list: &[Record], port: usize, address: u64) {
    let Some(record) = list.get(port) else {
        return;
    };
    let base = record.base;
    let last = record.num_group;
    if record.enable == 0 {
        say!("  no hit: port {port:X} is not enabled\n");
    } else if address < base {
        say!("  no hit: the address is below {base:X}, the base of port {port:X}\n");
    } else {
        let group = (address - base) >> (record.index % 64);
        say!(
            "  no hit: it would be in group {group:X}, and the last one of port {port:X} is {last:X}\n"
        );
    }
}

pub fn tell_refused(list: &[Record], entering: usize) {
    let count = list.len();
    if MOST_PORTS < count {
        say!("  the list has {count:X} records, and may have 20\n");
    } else if count <= entering {
        say!("  no port {entering:X}: the list has {count:X} records, counted from port 0\n");
    } else {
        tell_faulty(list);
    }
}

// The first port with a record that no capability gives.
fn tell_faulty(list: &[Record]) {
    for (port, record) in list.iter().enumerate() {
        if let Some(fault) = fault_of(record) {
            say!("  port {port:X}: {fault}\n");
            return;
        }
    }
}

fn fault_of(record: &Record) -> Option<Fault> {
    if 63 < record.max_group {
        return Some(Fault::MaxGroup);
    }
    if 1 < record.enable {
        return Some(Fault::Enable);
    }
    if 63 < record.index {
        return Some(Fault::Index);
    }
    if record.base % 4096 != 0 {
        return Some(Fault::Base);
    }
    if record.max_group < record.num_group {
        return Some(Fault::NumGroup);
    }
    if record.enable == 1 && record.index < 12 {
        return Some(Fault::SmallWindow);
    }
    None
}
