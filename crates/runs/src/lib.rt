#![tactic(auto)]
// Serving over a sequence: what a board is and shows after packets and resets in any order, and that calling `Board::serve` and
// `board::reset` one by one gives just that. This crate has statements and proofs and no code: specs/Run.antt, specs/Calls.antt,
// proofs/Calls.antt; the servers that document 01 wants refused are in specs/Servers.antt and proofs/Servers.antt.
