// The rules of a sheet in the order in which its image numbers them: the word rules, then the others, each kind in sheet order.
// Only the columns are put in that order; positions and numbers are made of them by other crates.
#![tactic(auto)]

ghost use Rattle.std.specs.Prelude.{◌≡◌, List, ◌++◌, ℕ, ◌+◌, ◌≤◌, ◌<◌, length, take, get_or};
ghost use Rattle.sheet.specs.Regex.{Regex};
ghost use Rattle.sheet.specs.laws.RegexItems.{regex_items_of};
ghost use Rattle.sheet.specs.Sheet.{Rule};
ghost use Rattle.columns.specs.Holds.{RulesOf};
ghost use Rattle.lexer.specs.RuleOrder.{words_first};
ghost use Rattle.rule_sorter.specs.Ends.{classes_of, word_item, ItemsAt, rule_end};
ghost use Rattle.rule_sorter.specs.Kinds.{kind_of, kind_before, part};

use columns::RuleColumns;

// Where a rule's items and classes end, and whether it is a word rule.
#[derive(Clone, Copy)]
struct RuleEnd {
    word: bool,
    item: usize,
    class: usize,
}

// How many classes an item is.
#[tactic(auto, unfolding(crate::specs::Ends::classes_of))]
fn classes_of(tag: u8) -> usize
    ensures { result ≡ classes_of tag }
{
    usize::from(tag == 1)
}

// Whether an item may stand in a word rule: a class of one byte may, and an alternative and a star may not.
#[tactic(auto, unfolding(crate::specs::Ends::word_item))]
fn word_item(tag: u8, low: &[u8; 64], high: &[u8; 64], class: usize) -> bool
    requires { tag ≡ 1 → class < 64 }
    ensures { result ≡ word_item tag (get_or low.now class 0) (get_or high.now class 0) }
{
    match tag {
        1 => low[class] == high[class],
        3 | 4 => false,
        _ => true,
    }
}

// Where the rule ends whose regex begins at an item and a class. In prefix order that is where no regex is due any more.
fn rule_end(tag: &[u8; 256], low: &[u8; 64], high: &[u8; 64], item: usize, class: usize) -> RuleEnd
    requires { (class ≤ 64) × ((r : Regex) × ItemsAt tag.now low.now high.now item class (regex_items_of r)) }
    ensures { (r : Regex) → ItemsAt tag.now low.now high.now item class (regex_items_of r)
        → result ≡ rule_end r item class }
{
    let mut word = true;
    let mut i = item;
    let mut c = class;
    let mut due: usize = 1;
    while 0 < due {
        let t = tag[i];
        word &= word_item(t, low, high, c);
        c += classes_of(t);
        due = due - 1 + columns::parts_of(t);
        i += 1;
    }
    RuleEnd {
        word,
        item: i,
        class: c,
    }
}

// Appends a part of one column to another, if it is wanted, and says where the next part goes.
fn append_part(
    from: &[u8],
    begin: usize,
    end: usize,
    wanted: bool,
    to: &mut [u8],
    at: usize,
) -> usize
    requires { (begin ≤ end) × (end ≤ length from.now) × (at + length (part wanted begin end from.now) ≤ length to.old) }
    ensures { (result ≡ at + length (part wanted begin end from.now))
        × (take result to.new ≡ take at to.old ++ part wanted begin end from.now) }
{
    if !wanted {
        return at;
    }
    let next = at + (end - begin);
    to[at..next].copy_from_slice(&from[begin..end]);
    next
}

// Appends the rules of a kind, in sheet order, to those of the kind before it. The places stay as they are.
fn append_kind(rules: RuleColumns, words: bool, sorted: RuleColumns) -> RuleColumns
    requires { (held : List Rule) × (places : List ℕ) × (moved : List ℕ) × RulesOf rules held places
        × RulesOf sorted (kind_before words held) moved }
    ensures { (result.place ≡ sorted.place) × ((held : List Rule) (places moved : List ℕ) → RulesOf rules held places
        → RulesOf sorted (kind_before words held) moved
        → ((after : List ℕ) × RulesOf result (kind_before words held ++ kind_of words held) after)) }
{
    let mut action = sorted.action;
    let mut tag = sorted.tag;
    let mut low = sorted.low;
    let mut high = sorted.high;
    let mut count = sorted.count;
    let mut items = sorted.items;
    let mut classes = sorted.classes;
    let mut item: usize = 0;
    let mut class: usize = 0;
    for k in 0..rules.count {
        let end = rule_end(&rules.tag, &rules.low, &rules.high, item, class);
        let wanted = words == end.word;
        count = append_part(&rules.action, k, k + 1, wanted, &mut action, count);
        items = append_part(&rules.tag, item, end.item, wanted, &mut tag, items);
        append_part(&rules.low, class, end.class, wanted, &mut low, classes);
        classes = append_part(&rules.high, class, end.class, wanted, &mut high, classes);
        item = end.item;
        class = end.class;
    }
    let place = sorted.place;
    RuleColumns {
        count,
        action,
        place,
        items,
        tag,
        classes,
        low,
        high,
    }
}

// The rules in the image's order. The places stay those of the sheet's rules, in sheet order: the questions that name them were asked
// before.
pub fn words_first(rules: RuleColumns) -> RuleColumns
    requires { (held : List Rule) × (places : List ℕ) × RulesOf rules held places }
    ensures { (held : List Rule) (places : List ℕ) → RulesOf rules held places → RulesOf result (words_first held) places }
{
    let mut none = rules;
    none.count = 0;
    none.items = 0;
    none.classes = 0;
    let words = append_kind(rules, true, none);
    append_kind(rules, false, words)
}
