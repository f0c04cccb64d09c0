#![tactic(auto)]
// That the isolation of two functions says something: runs that meet its premises and differ in all that may differ (proofs/Bite.antt), that each
// premise is needed (proofs/Needed.antt), both for demand 3 of each function too (proofs/HalvesNeeded.antt), servers of a pair that are wrong as a
// newcomer's would be (specs/Servers.antt, proofs/Wrong.antt, proofs/Faulty.antt), and the Dual-BDF record that names the second function
// (proofs/Dual.antt). This crate has statements and proofs and no code; what is isolated stands in `isolation`, and an edit there rechecks none of this.
