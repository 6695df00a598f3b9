// The machine: definitions and their laws alone, in specs/. This crate has no code.
#![tactic(auto)]
