#![tactic(auto)]
// What the two functions of one board share, and what they do not: document 02, 11/13, over the very definition of serving that `pair::serve` is
// proved against. This crate has statements and proofs and no code. specs/Rows.antt says what a run of a pair and a row of calls are, specs/Views.antt
// what is compared, specs/Statements.antt states the isolation and demand 3 for each function; proofs/Isolated.antt and proofs/Halves.antt prove them,
// of runs and of calls. That they say something, and that each premise is needed, is in `witnesses`.
