// From the rules of a sheet that was read: question 7 by `empty_rule`, and apart from it, by `positions_of`, the positions with their
// first, last and follow sets. A set of positions is one number. Which texts match is not asked here.
#![tactic(auto)]

ghost use Rattle.std.specs.Prelude.{◌≡◌, Bool, false, cond, List, map, ℕ, ◌+◌, ◌≤◌, ◌<◌, length};
ghost use Rattle.sheet.specs.Regex.{Regex};
ghost use Rattle.sheet.specs.Sheet.{Rule};
ghost use Rattle.columns.specs.Holds.{RulesOf};
ghost use Rattle.lexer.specs.Positions.{nullable, empty_match};
ghost use Rattle.position_finder.specs.Stacks.{TagsHeld, flag_of, Stacked, first_up};
ghost use Rattle.position_finder.specs.Nodes.{empty_node, class_node, concat_node, union_node, star_node, node_of};
ghost use Rattle.position_finder.specs.Forests.{RegexesHeld, joined, filled, ForestOf, RulesStacked, RuleSetsOf};
ghost use Rattle.position_finder.specs.Answer.{empty_rule, PositionsOf};

use columns::{PositionColumns, RuleColumns};

// The sets of a regex, and where its positions end.
#[derive(Clone, Copy)]
struct Sets {
    nullable: bool,
    first: u64,
    last: u64,
    end: usize,
}

// What a node makes of the regexes after it: its own sets, which positions (`from`) it lets others (`next`) follow, and where its
// positions start.
#[derive(Clone, Copy)]
struct Node {
    sets: Sets,
    from: u64,
    next: u64,
    base: usize,
}

// The rule of each position, and where a match of any rule begins and ends.
#[derive(Clone, Copy)]
struct RuleSets {
    rule: [u8; 64],
    first: u64,
    last: u64,
}

// The sets of the rules together, and the follow sets of their positions.
#[derive(Clone, Copy)]
struct Forest {
    sets: RuleSets,
    follow: [u64; 64],
}

// Whether the regex of an item matches the empty word, if the next two regexes match it or do not. The empty one and a star do in any
// case, and a class does not.
#[tactic(auto, unfolding(crate::specs::Stacks::flag_of))]
fn flag_of(tag: u8, r: bool, s: bool) -> bool
    ensures { result ≡ flag_of tag r s }
{
    match tag {
        1 => false,
        2 => r & s,
        3 => r | s,
        _ => true,
    }
}

// Of regexes that stand one after the other in prefix order, which ones match the empty word: a stack with the first regex's flag on
// top. From the last item to the first, each one finds its parts there. The two lowest entries are no regexes: they are there so that
// two entries can be read at any time.
fn flags_of(tag: &[u8; 256], items: usize) -> [bool; 258]
    requires { (rs : List Regex) × TagsHeld tag.now items rs }
    ensures { (rs : List Regex) → TagsHeld tag.now items rs → Stacked false result (map nullable rs) }
{
    let mut flags = [false; 258];
    let mut top: usize = 1;
    for at in (0..items).rev() {
        let flag = flag_of(tag[at], flags[top], flags[top - 1]);
        top = top + 1 - columns::parts_of(tag[at]);
        flags[top] = flag;
    }
    flags
}

// The number of the first flag that is up, from the top of the stack down.
fn first_up(flags: &[bool; 258], count: u8) -> Option<u8>
    ensures { (up : List Bool) → Stacked false flags.now up → count ≡ length up → empty_rule result ≡ first_up up 0 }
{
    for k in 0..count {
        let top = (count - k) as usize + 1;
        if flags[top] {
            return Some(k);
        }
    }
    None
}

// Question 7: the first rule that matches the empty word. No position is made.
pub fn empty_rule(rules: RuleColumns) -> Option<u8>
    requires { (held : List Rule) × (places : List ℕ) × RulesOf rules held places }
    ensures { (held : List Rule) (places : List ℕ) → RulesOf rules held places → empty_rule result ≡ empty_match held 0 }
{
    let count = rules.count as u8;
    let flags = flags_of(&rules.tag, rules.items);
    first_up(&flags, count)
}

fn empty_node(base: usize) -> Node
    ensures { result ≡ empty_node base }
{
    let sets = Sets {
        nullable: true,
        first: 0,
        last: 0,
        end: base,
    };
    Node {
        sets,
        from: 0,
        next: 0,
        base,
    }
}

// The position of a class is the one before those of the regexes after it.
fn class_node(base: usize) -> Node
    requires { (0 < base) × (base ≤ 64) }
    ensures { result ≡ class_node base }
{
    let position = base - 1;
    let sets = Sets {
        nullable: false,
        first: 1u64 << position,
        last: 1u64 << position,
        end: base,
    };
    Node {
        sets,
        from: 0,
        next: 0,
        base: position,
    }
}

fn concat_node(r: Sets, s: Sets, base: usize) -> Node
    ensures { result ≡ concat_node r s base }
{
    let sets = Sets {
        nullable: r.nullable & s.nullable,
        first: r.first | sets::only_if(s.first, r.nullable),
        last: sets::only_if(r.last, s.nullable) | s.last,
        end: s.end,
    };
    Node {
        sets,
        from: r.last,
        next: s.first,
        base,
    }
}

fn union_node(r: Sets, s: Sets, base: usize) -> Node
    ensures { result ≡ union_node r s base }
{
    let sets = Sets {
        nullable: r.nullable | s.nullable,
        first: r.first | s.first,
        last: r.last | s.last,
        end: s.end,
    };
    Node {
        sets,
        from: 0,
        next: 0,
        base,
    }
}

fn star_node(r: Sets, base: usize) -> Node
    ensures { result ≡ star_node r base }
{
    let sets = Sets {
        nullable: true,
        first: r.first,
        last: r.last,
        end: r.end,
    };
    Node {
        sets,
        from: r.last,
        next: r.first,
        base,
    }
}

// The node of a tag, over the next two regexes, whose positions start at a base.
#[tactic(auto, unfolding(crate::specs::Nodes::node_of))]
fn node_of(tag: u8, r: Sets, s: Sets, base: usize) -> Node
    requires { (base ≤ 64) × (tag ≡ 1 → 0 < base) }
    ensures { result ≡ node_of tag r s base }
{
    match tag {
        0 => empty_node(base),
        1 => class_node(base),
        2 => concat_node(r, s, base),
        3 => union_node(r, s, base),
        _ => star_node(r, base),
    }
}

// Lets the positions `next` follow each of the positions `from`, from the lowest of these to the next, until none is left. The lowest
// stands at the number of trailing zeros, and `left - 1` differs from the set there and below.
fn join_follow(follow: &mut [u64; 64], from: u64, next: u64)
    requires { length follow.old ≡ 64 }
    ensures { follow.new ≡ joined from next follow.old }
{
    let mut left = from;
    while left != 0 {
        let i = u64::trailing_zeros(left) as usize;
        follow[i] |= next;
        left = left & (left - 1);
    }
}

// The rules' own sets together. Rule 0 is on top of the stack.
fn rule_sets(stack: &[Sets; 258], count: u8) -> RuleSets
    requires { (rs : List Regex) × RulesStacked stack.now count rs }
    ensures { (rs : List Regex) → RulesStacked stack.now count rs → RuleSetsOf rs result }
{
    let mut rule = [0u8; 64];
    let mut first: u64 = 0;
    let mut last: u64 = 0;
    let mut base: usize = 0;
    for k in 0..count {
        let top = (count - k) as usize + 1;
        let sets = stack[top];
        rule[base..sets.end].fill(k);
        first |= sets.first;
        last |= sets.last;
        base = sets.end;
    }
    RuleSets { rule, first, last }
}

// The sets of rules whose regexes stand one after the other in prefix order. From the last item to the first, each one finds its parts on
// top of a stack. Its two lowest entries are no regexes: they are there so that two entries can be read at any time.
fn sweep(tag: &[u8; 256], items: usize, classes: usize, count: u8) -> Forest
    requires { (rs : List Regex) × RegexesHeld tag.now items classes rs × (count ≡ length rs) }
    ensures { (rs : List Regex) → RegexesHeld tag.now items classes rs → count ≡ length rs → ForestOf rs result }
{
    let unused = Sets {
        nullable: false,
        first: 0,
        last: 0,
        end: 0,
    };
    let mut stack = [unused; 258];
    let mut follow = [0u64; 64];
    let mut top: usize = 1;
    let mut base = classes;
    for at in (0..items).rev() {
        let node = node_of(tag[at], stack[top], stack[top - 1], base);
        join_follow(&mut follow, node.from, node.next);
        top = top + 1 - columns::parts_of(tag[at]);
        let sets = node.sets;
        stack[top] = sets;
        base = node.base;
    }
    let sets = rule_sets(&stack, count);
    Forest { sets, follow }
}

// The positions of a sheet's rules.
pub fn positions_of(rules: RuleColumns) -> PositionColumns
    requires { (held : List Rule) × (places : List ℕ) × RulesOf rules held places }
    ensures { (held : List Rule) (places : List ℕ) → RulesOf rules held places → PositionsOf held result }
{
    let classes = rules.classes;
    let count = rules.count as u8;
    let forest = sweep(&rules.tag, rules.items, classes, count);
    let sets = forest.sets;
    let low = rules.low;
    let high = rules.high;
    let rule = sets.rule;
    let follow = forest.follow;
    PositionColumns {
        count: classes,
        low,
        high,
        rule,
        follow,
        last: sets.last,
        first: sets.first,
    }
}
