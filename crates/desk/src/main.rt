#![tactic(auto)]
// The desk: statements from standard input, each answered at once. `help` lists them. What decides is the proved code of the crates
// below; here only safety is promised, and that every session ends.
mod bench;
mod boards;
mod capabilities;
mod chaining;
mod completions;
mod desks;
mod doing;
mod explaining;
mod faults;
mod grammar;
mod helping;
mod input;
mod judging;
mod keeping;
mod laying;
mod leaving;
mod list;
mod missing;
mod packets;
mod planning;
mod reading;
mod requests;
mod routing;
mod rules;
mod saying;
mod session;
mod spaces;
mod structures;
mod tokens;
mod unlaid;
mod verdicts;
mod vocabulary;
mod walking;

use bench::Bench;
use input::PIECE;

fn main(rt: HostRuntime) {
    let mut bench = Bench::new();
    let mut piece = [0; PIECE];
    session::run(&mut bench, &mut piece, &mut rt.stdin());
}
