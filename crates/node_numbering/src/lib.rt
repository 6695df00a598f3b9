// The numbering of nonterminals, node by node: a node gets its number when it is first met. A rule's production is found by a walk and
// kept in no table. In which order the nodes are met, and how an image is written, is not said here.
#![tactic(auto)]

ghost use Rattle.std.specs.Prelude.{◌≡◌, ◌<◌, get_or};
ghost use Rattle.sheet.specs.Expression.{Expression, size};
ghost use Rattle.normal_form.specs.Productions.{row_of};
ghost use Rattle.normal_form.specs.NormalForm.{normal_form};
ghost use Rattle.production_finder.specs.Columns.{ColumnsOf, TailCounted, tail_held};
ghost use Rattle.node_numbering.specs.Grammar.{start_numbering, numbering_after};
ghost use Rattle.node_numbering.specs.laws.GrammarLaws.{grammar_from};
ghost use Rattle.node_numbering.specs.laws.RuleTails.{action_tail};

use columns::{NodeLinks, RuleColumns, TypeColumns};
use production_finder::{Tail, WalkColumns};

// The rules' actions; the expression's tags, links and FIRST sets by node; the nullable nodes as a set.
#[derive(Clone, Copy)]
pub struct Grammar {
    pub rules: usize,
    pub action: [u8; 32],
    pub tag: [u8; 64],
    pub link: [u8; 64],
    pub first: [u32; 64],
    pub null: u64,
}

// The nodes met, in order, and each node's number, which is 64 for a node that was not met.
#[derive(Clone, Copy)]
pub struct Numbering {
    pub count: usize,
    pub met: [u8; 64],
    pub number: [u8; 64],
}

// The columns of a grammar, out of those that checking made.
pub fn grammar_from(rules: RuleColumns, links: NodeLinks, types: TypeColumns) -> Grammar
    ensures { result ≡ grammar_from rules links types }
{
    let action = rules.action;
    let tag = links.tag;
    let link = links.link;
    let first = types.first;
    Grammar {
        rules: rules.count,
        action,
        tag,
        link,
        first,
        null: types.null,
    }
}

// The tail that the production of a rule with this action has in a node's row. A rule that skips has none. The grammar is lent and not
// copied, since this is asked for each node and rule.
pub fn rule_tail(grammar: &Grammar, node: usize, action: u8) -> Option<Tail>
    requires { (e : Expression) × ColumnsOf grammar.now.tag grammar.now.link grammar.now.first e × (node < size e) }
    ensures counted { TailCounted result }
    ensures same { (e : Expression) → ColumnsOf grammar.now.tag grammar.now.link grammar.now.first e → node < size e
        → tail_held result ≡ action_tail action (row_of (normal_form e) node).productions }
{
    if action == 0 {
        return None;
    }
    let columns = WalkColumns {
        tag: &grammar.tag,
        link: &grammar.link,
        first: &grammar.first,
    };
    production_finder::production(columns, node, action - 1)
}

impl Numbering {
    // Only the start has been met.
    #[tactic(auto, unfolding(crate::specs::Grammar::start_numbering))]
    pub fn start() -> Numbering
        ensures { result ≡ start_numbering }
    {
        let mut number = [64; 64];
        number[0] = 0;
        Numbering {
            count: 1,
            met: [0; 64],
            number,
        }
    }

    // A node joins those met, unless it has been met. The numbering is lent, since a copy of what was just stored byte by byte makes the
    // processor wait. The law `node_met` says what it then holds of the nodes met.
    #[tactic(auto, unfolding(crate::specs::Grammar::numbering_after))]
    pub fn meet(&mut self, n: usize)
        ensures { self.new ≡ numbering_after self.old n }
    {
        if 64 <= n || self.number[n] < 64 || 64 <= self.count {
            return;
        }
        self.met[self.count] = n as u8;
        self.number[n] = self.count as u8;
        self.count += 1;
    }

    // The node that was met as the i-th.
    pub fn node_at(&self, i: usize) -> usize
        requires { i < 64 }
        ensures { result ≡ get_or self.now.met i 0 }
    {
        usize::from(self.met[i])
    }

    // A node's number. No node from 64 on has one.
    pub fn number_of(&self, n: usize) -> u64
        ensures { result ≡ get_or self.now.number n 0 }
    {
        match self.number.get(n) {
            Some(entry) => u64::from(*entry),
            None => 0,
        }
    }
}
