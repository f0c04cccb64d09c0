#![tactic(auto)]
// What the two spaces share, and what they do not: demand 3, over the very definition of serving that `Board::serve` is proved against.
// This crate has statements and proofs and no code. specs/Views.antt says what is compared, specs/Statements.antt states the two halves and
// specs/Calls.antt states them of calls of the entries; proofs/FirstHalf.antt, proofs/SecondHalf.antt and proofs/Entries.antt prove them,
// proofs/Bite.antt shows that they say something and proofs/Needed.antt that each premise is needed.
