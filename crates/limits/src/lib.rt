#![tactic(auto)]
// What a host may not rely on when it repeats a packet or swaps two writes: document 02, 12/13, the other way round. This crate has statements and proofs and no code.
// specs/Between.antt says what can come between a packet and its repeat, specs/Parts.antt what two writes that are swapped have in common, specs/Servers.antt which
// faults of a server a repeat or a swap brings to light. What of `retry`'s premises is needed is in proofs/Late.antt and proofs/Needed.antt, that they are met in
// proofs/Bite.antt, and that no server with one of those faults meets the promise of `Board::serve` in proofs/Wrong.antt.
