#![tactic(auto)]
// The bench sheet as one check: what the written rules give for P1 to P12, beside what the sheet says. This crate has statements and
// proofs and no code: specs/Sheet.antt and proofs/Sheet.antt.
