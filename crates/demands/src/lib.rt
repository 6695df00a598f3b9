// The three demands: statements and proofs alone, in specs/. This crate has no code.
#![tactic(auto)]
