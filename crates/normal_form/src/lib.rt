// The normal form of an expression: definitions and their laws, in specs/. The code has its two limits and nothing else: the most
// members that a production's tail has, and by how many a take lets the pending nonterminals grow.
#![tactic(auto)]

pub const MOST_TAIL: u64 = 32;

pub const MOST_GROWTH: usize = 31;
