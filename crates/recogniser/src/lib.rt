// Document 001's recogniser: definitions and theorems alone, in specs/. This crate has no code.
#![tactic(auto)]
