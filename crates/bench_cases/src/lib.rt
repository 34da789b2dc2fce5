// Document 01's bench cases that are marked P: specs/BenchCases.antt lists them, and proofs/ prove the list. A box runs no code of this crate.
#![tactic(auto)]
