#![tactic(auto)]
// What a host may repeat, and two writes that it may swap or join: document 02, 12/13, over the very definitions of serving that `Board::serve`, `pair::serve`
// and `router::route` are proved against. This crate has statements and proofs and no code. specs/Rows.antt says what happens one thing after the other to a board and
// to a board of two functions, specs/Switch.antt to a switch with boards behind its ports; specs/Repeats.antt and specs/Writes.antt state what holds, and
// proofs/Hosts.antt shows it for a host that asks again. What does not hold is in `limits`.
