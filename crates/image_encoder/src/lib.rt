// The encoder: the numbers of an image, one after the other, from the columns that checking made. Nodes get their numbers
// as they are written. The same code measures an image and writes it. Whether there is room (question 11) is the caller's to ask, before
// the first byte is written.
#![tactic(auto)]

ghost use Rattle.std.specs.Prelude.{◌≡◌, List, [], ◌∷◌, ◌++◌, ℕ, ◌+◌, ◌≤◌, ◌<◌, length, take, drop, Some};
ghost use Rattle.basics.specs.Lists.{All};
ghost use Rattle.basics.specs.Meeting.{meet_all};
ghost use Rattle.sheet.specs.Expression.{Expression, size};
ghost use Rattle.sheet.specs.Sheet.{Rule, Sheet};
ghost use Rattle.normal_form.specs.Productions.{row_of};
ghost use Rattle.normal_form.specs.NormalForm.{normal_form};
ghost use Rattle.image.specs.Fusion.{fused_from};
ghost use Rattle.image.specs.Image.{flag, plain_image, image_numbers, image_bytes};
ghost use Rattle.node_numbering.specs.Grammar.{GrammarOf, Numbers, Within};
ghost use Rattle.node_numbering.specs.Leads.{Leads};
ghost use Rattle.image_encoder.specs.laws.Emitted.{Emitted};
ghost use Rattle.image_encoder.specs.Parts.{rules_part, positions_part, production_part, productions_part};
ghost use Rattle.image_encoder.specs.Parts.{row_nodes, row_part, rows_part, PartsOf};

use columns::PositionColumns;
use node_numbering::{Grammar, Numbering};
use production_finder::Tail;

// Writes a number into what remains of a buffer from a cursor on, if it fits, and answers where the next number starts.
// The bounds on cursors, here and below, leave room for all numbers of an image, of ten bytes at most each.
fn emit(image: &mut [u8], at: usize, n: u64) -> usize
    requires { at ≤ 9000000 }
    ensures near { result ≤ at + 10 }
    ensures emitted { Emitted image.old image.new at result (n ∷ []) }
{
    match number::write_number_at(image, at, n) {
        Some(used) => at + used,
        None => at + number::number_width(n),
    }
}

// A flag, as 1 or 0.
#[tactic(auto, unfolding(image::specs::Image::flag))]
fn emit_flag(image: &mut [u8], at: usize, is_set: bool) -> usize
    requires { at ≤ 9000000 }
    ensures near { result ≤ at + 10 }
    ensures emitted { Emitted image.old image.new at result (flag is_set ∷ []) }
{
    emit(image, at, u64::from(is_set))
}

// The version, the number of rules, and which rules skip.
fn emit_rules(image: &mut [u8], at: usize, grammar: &Grammar) -> usize
    requires near { at ≤ 8000000 }
    requires few { grammar.now.rules ≤ 32 }
    ensures near { result ≤ at + 340 }
    ensures emitted { Emitted image.old image.new at result (rules_part grammar.now) }
{
    let version = emit(image, at, 1);
    let mut next = emit(image, version, grammar.rules as u64);
    for i in 0..grammar.rules {
        next = emit_flag(image, next, grammar.action[i] == 0);
    }
    next
}

// One position.
fn emit_position(
    image: &mut [u8],
    at: usize,
    low: u8,
    high: u8,
    rule: u8,
    is_last: bool,
    follow: u64,
) -> usize
    requires { at ≤ 8000000 }
    ensures near { result ≤ at + 50 }
    ensures emitted { Emitted image.old image.new at result (low ∷ high ∷ rule ∷ flag is_last ∷ follow ∷ []) }
{
    let after_low = emit(image, at, low as u64);
    let after_high = emit(image, after_low, high as u64);
    let after_rule = emit(image, after_high, rule as u64);
    let after_last = emit_flag(image, after_rule, is_last);
    emit(image, after_last, follow)
}

// The number of positions, each position, and the first set.
fn emit_positions(image: &mut [u8], at: usize, positions: &PositionColumns) -> usize
    requires near { at ≤ 7000000 }
    requires few { positions.now.count ≤ 64 }
    ensures near { result ≤ at + 3220 }
    ensures emitted { Emitted image.old image.new at result (positions_part positions.now) }
{
    let mut next = emit(image, at, positions.count as u64);
    for i in 0..positions.count {
        next = emit_position(
            image,
            next,
            positions.low[i],
            positions.high[i],
            positions.rule[i],
            sets::has(positions.last, i),
            positions.follow[i],
        );
    }
    emit(image, next, positions.first)
}

// A rule's production: the rule, the length of the tail, and the numbers of the tail's nodes. A node that has not been met gets the next
// number, so that numbers follow the order of writing.
fn emit_production(
    image: &mut [u8],
    at: usize,
    rule: usize,
    tail: &Tail,
    numbering: &mut Numbering,
) -> usize
    requires near { at ≤ 8000000 }
    requires short { tail.now.count ≤ 32 }
    requires few { Within numbering.old }
    ensures near { result ≤ at + 340 }
    ensures few { Within numbering.new }
    ensures emitted { (known all : List ℕ) → Numbers numbering.old known → Leads known (take tail.now.count tail.now.members) all
        → All (λ n. n < 64) (take tail.now.count tail.now.members)
        → Numbers numbering.new (meet_all known (take tail.now.count tail.now.members))
        × Emitted image.old image.new at result (production_part all rule (Some tail.now)) }
{
    let members = &tail.members[..tail.count];
    let after_rule = emit(image, at, rule as u64);
    let mut next = emit(image, after_rule, members.len() as u64);
    for member in members {
        let node = usize::from(*member);
        numbering.meet(node);
        let own = numbering.number_of(node);
        next = emit(image, next, own);
    }
    next
}

// Where the productions of a row end, and how many there are.
#[derive(Clone, Copy)]
struct ProductionsEnd {
    next: usize,
    count: usize,
}

// The productions of a node's row, by rising rule. Most rules have none.
fn emit_productions(
    image: &mut [u8],
    at: usize,
    grammar: &Grammar,
    numbering: &mut Numbering,
    node: usize,
) -> ProductionsEnd
    requires near { at ≤ 7000000 }
    requires few { Within numbering.old }
    requires held { (rules : List Rule) × (e : Expression) × GrammarOf grammar.now rules e × (node < size e) }
    ensures near { result.next ≤ at + 10880 }
    ensures counted { result.count ≤ 32 }
    ensures few { Within numbering.new }
    ensures emitted { (rules : List Rule) (e : Expression) → GrammarOf grammar.now rules e → node < size e
        → (result.count ≡ length (fused_from rules 0 (row_of (normal_form e) node).productions))
        × ((met all : List ℕ) → Numbers numbering.old met → Leads met (row_nodes rules e node) all
        → Numbers numbering.new (meet_all met (row_nodes rules e node))
        × Emitted image.old image.new at result.next (productions_part all rules e node)) }
{
    let mut next = at;
    let mut count: usize = 0;
    for rule in 0..grammar.rules {
        let Some(tail) = node_numbering::rule_tail(grammar, node, grammar.action[rule]) else {
            continue;
        };
        next = emit_production(image, next, rule, &tail, numbering);
        count += 1;
    }
    ProductionsEnd { next, count }
}

// A node's row: its ε flag, how many productions it has, and the productions. How many there are is known once they are written, so a 0
// keeps its place, which is one byte for any count.
fn emit_row(
    image: &mut [u8],
    at: usize,
    grammar: &Grammar,
    numbering: &mut Numbering,
    node: usize,
) -> usize
    requires near { at ≤ 6000000 }
    requires few { Within numbering.old }
    requires held { (rules : List Rule) × (e : Expression) × GrammarOf grammar.now rules e × (node < size e) }
    ensures near { result ≤ at + 10900 }
    ensures few { Within numbering.new }
    ensures emitted { (rules : List Rule) (e : Expression) → GrammarOf grammar.now rules e → node < size e
        → (met all : List ℕ) → Numbers numbering.old met → Leads met (row_nodes rules e node) all
        → Numbers numbering.new (meet_all met (row_nodes rules e node))
        × Emitted image.old image.new at result (row_part all rules e node) }
{
    let is_null = sets::has(grammar.null, node);
    let after_flag = emit_flag(image, at, is_null);
    let after_count = emit(image, after_flag, 0);
    let row = emit_productions(image, after_count, grammar, numbering, node);
    emit(image, after_flag, row.count as u64);
    row.next
}

// The number of nonterminals and their rows, in the order of their numbers: the nodes reached from the start, as they are met row by row.
// How many there are is known once their rows are written, so a 0 keeps its place, as in a row.
fn emit_rows(image: &mut [u8], at: usize, grammar: &Grammar) -> usize
    requires near { at ≤ 5000000 }
    requires held { (rules : List Rule) × (e : Expression) × GrammarOf grammar.now rules e }
    ensures near { result ≤ at + 697610 }
    ensures emitted { (rules : List Rule) (e : Expression) → GrammarOf grammar.now rules e
        → Emitted image.old image.new at result (rows_part rules e) }
{
    let mut next = emit(image, at, 0);
    let mut numbering = Numbering::start();
    let mut i: usize = 0;
    while i < numbering.count {
        let node = numbering.node_at(i);
        next = emit_row(image, next, grammar, &mut numbering, node);
        i += 1;
    }
    emit(image, at, i as u64);
    next
}

// All numbers of the image, from the front of a buffer on. The answer is the width of the image, whether it fits or not.
fn emit_image(image: &mut [u8], grammar: &Grammar, positions: &PositionColumns) -> usize
    requires { (s : Sheet) × PartsOf grammar.now positions.now s × (positions.now.count ≤ 64) }
    ensures { (s : Sheet) → PartsOf grammar.now positions.now s
        → Emitted image.old image.new 0 result (image_numbers (plain_image s)) }
{
    let after_rules = emit_rules(image, 0, grammar);
    let after_positions = emit_positions(image, after_rules, positions);
    emit_rows(image, after_positions, grammar)
}

// How many bytes the image takes. The numbers are written nowhere but into one byte that is thrown away.
pub fn image_width(grammar: Grammar, positions: PositionColumns) -> usize
    requires { (s : Sheet) × PartsOf grammar positions s × (positions.count ≤ 64) }
    ensures { (s : Sheet) → PartsOf grammar positions s → result ≡ length (image_bytes (plain_image s)) }
{
    let mut none = [0u8; 1];
    emit_image(&mut none, &grammar, &positions)
}

// Writes the image over the front of a buffer that has room for it, and answers how many bytes it takes.
pub fn write_image(image: &mut [u8], grammar: Grammar, positions: PositionColumns) -> usize
    requires { (s : Sheet) × PartsOf grammar positions s
        × (length (image_bytes (plain_image s)) ≤ length image.old) × (positions.count ≤ 64) }
    ensures { (s : Sheet) → PartsOf grammar positions s
        → length (image_bytes (plain_image s)) ≤ length image.old
        → (result ≡ length (image_bytes (plain_image s)))
        × (image.new ≡ image_bytes (plain_image s) ++ drop (length (image_bytes (plain_image s))) image.old) }
{
    emit_image(image, &grammar, &positions)
}
