// The records of the switch's ports, by which an address is judged: a list, one for each port, the first that of port 0. They stay with a new board, as the
// ports do.
use crate::bench::MOST_RECORDS;
use crate::list::List;
use crate::tokens::Tokens;
use multicast::Record;

pub type Records = List<Record, MOST_RECORDS>;

// Seven numbers, whether a capability could have them or not.
pub fn record_of(numbers: Tokens) -> Record {
    Record {
        max_group: numbers.number(0) as u64,
        num_group: numbers.number(1) as u64,
        enable: numbers.number(2) as u64,
        index: numbers.number(3) as u64,
        base: numbers.number(4) as u64,
        receive: numbers.number(5) as u64,
        block_all: numbers.number(6) as u64,
    }
}

// The same numbers, in their order.
pub fn numbers_of(record: Record) -> [usize; 7] {
    [
        record.max_group as usize,
        record.num_group as usize,
        record.enable as usize,
        record.index as usize,
        record.base as usize,
        record.receive as usize,
        record.block_all as usize,
    ]
}
