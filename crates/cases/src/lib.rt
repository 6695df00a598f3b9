// The worked cases of document 01: statements and proofs alone, in specs/. This crate has no code.
#![tactic(auto)]
