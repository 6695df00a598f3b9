// What several crates share: definitions and proofs alone, in specs/. This crate has no code.
#![tactic(auto)]
