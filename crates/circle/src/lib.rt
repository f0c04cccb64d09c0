#![tactic(auto)]
// The circle closes: what we write is what the board reads, what the board replies is what we read, and "successful" means landed. This crate has
// statements and proofs and no code: specs/Replies.antt, specs/Sentence.antt, proofs/Exactly.antt, proofs/NightShift.antt.
