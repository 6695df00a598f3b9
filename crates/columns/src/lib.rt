// The columns in which code holds a sheet that was read, its nodes with their links and types, and its positions: one entry an item,
// a node or a position, by value. They are small enough to be passed on by value, and so no lent buffer has to be described.
// And what a regex node's tag tells of the nodes after it. How columns are filled is other crates' business.
#![tactic(auto)]

ghost use Rattle.std.specs.Prelude.{◌≡◌};
ghost use Rattle.columns.specs.Tags.{parts_of};

// The rules: an action and its place for each rule, a tag for each regex node over all rules, and the bytes of each class.
#[derive(Clone, Copy)]
pub struct RuleColumns {
    pub count: usize,
    pub action: [u8; 32],
    pub place: [u16; 32],
    pub items: usize,
    pub tag: [u8; 256],
    pub classes: usize,
    pub low: [u8; 64],
    pub high: [u8; 64],
}

// The expression: a node's tag, the number after its tag (a token's or a variable's, else 0), and the place of its tag.
#[derive(Clone, Copy)]
pub struct NodeColumns {
    pub count: usize,
    pub tag: [u8; 64],
    pub number: [u8; 64],
    pub place: [u16; 64],
}

// A node's tag, as in a sheet, and its link: a token's number, the right part of a sequence or of an alternative, a variable's
// own fixed point, or a repetition itself. The left part, a fixed point's body and a repetition's part is the next node. A
// variable is in the set if it is guarded.
#[derive(Clone, Copy)]
pub struct NodeLinks {
    pub count: usize,
    pub tag: [u8; 64],
    pub link: [u8; 64],
    pub guarded: u64,
}

// The nullable nodes as a set, and each node's first set and follow-last set.
#[derive(Clone, Copy)]
pub struct TypeColumns {
    pub null: u64,
    pub first: [u32; 64],
    pub flast: [u32; 64],
}

// The class's bytes, the rule and the follow set of each position; `last` and `first` are sets of positions.
#[derive(Clone, Copy)]
pub struct PositionColumns {
    pub count: usize,
    pub low: [u8; 64],
    pub high: [u8; 64],
    pub rule: [u8; 64],
    pub follow: [u64; 64],
    pub last: u64,
    pub first: u64,
}

// How many of the regexes after a regex node are its parts.
#[tactic(auto, using(std::proofs::lemmas::Bool::Decides::nat_tests), unfolding(crate::specs::Tags::parts_of))]
pub fn parts_of(tag: u8) -> usize
    ensures { result ≡ parts_of tag }
{
    match tag {
        0 | 1 => 0,
        2 | 3 => 2,
        _ => 1,
    }
}
