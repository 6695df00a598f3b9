// A text's tokens by longest match over a sheet's rules: each token into a lent list, where it starts into a lent array. The scanner's
// tables are made from the rules themselves; no image is made or read, and no expression is asked.
#![tactic(auto)]

ghost use Rattle.std.specs.Prelude.{◌≡◌, List, [], ℕ, ◌+◌, ◌≤◌, ◌<◌, length};
ghost use Rattle.sheet.specs.Sheet.{Rule, Sheet};
ghost use Rattle.lexer.specs.laws.PositionBounds.{PositionsInRange};
ghost use Rattle.columns.specs.HeldPositions.{held_positions};
ghost use Rattle.scanner.specs.Meaning.{Prepared};
ghost use Rattle.recogniser.specs.Listing.{Listed, listed, with_action, list_tokens};
ghost use Rattle.token_lister.specs.Listing.{joined, Written, RulesPassed, RulesReady};

use class_table::{hold_position, sweep};
use columns::{PositionColumns, RuleColumns};

// How many tokens were listed, and the place at which reading stopped: the text's end, or where no rule matches.
#[derive(Clone, Copy)]
pub struct ListEnd {
    pub count: usize,
    pub place: usize,
}

// The tables that the scanner goes by.
fn tables_of(positions: PositionColumns) -> [u64; 448]
    requires { (rules : ℕ) × (rules ≤ 32) × PositionsInRange rules (held_positions positions) positions.first }
    ensures { Prepared (held_positions positions) positions.last result }
{
    let mut tables = [0u64; 448];
    for i in 0..positions.count {
        let one = 1u64 << i;
        hold_position(
            positions.low[i],
            positions.high[i],
            positions.rule[i],
            positions.follow[i],
            i,
            one,
            &mut tables,
        );
    }
    sweep(&mut tables);
    tables
}

// A rule with this action matches at a place: its token joins those listed, unless the rule skips. Answers how many are listed then.
fn put_token(
    action: u8,
    place: usize,
    count: usize,
    list: &mut [u8],
    starts: &mut [u16; 2048],
) -> usize
    requires { (count < length list.old) × (count < 2048) × (place ≤ 2048) × (length starts.old ≡ 2048) }
    ensures { (result ≤ count + 1) × (length starts.new ≡ 2048)
        × ((l : Listed) (list₀ starts₀ : List ℕ) → Written l count list₀ list.old starts₀ starts.old
        → Written (joined l (with_action action place (listed [] [] place))) result list₀ list.new starts₀ starts.new) }
{
    if action == 0 {
        return count;
    }
    list[count] = action - 1;
    starts[count] = place as u16;
    count + 1
}

// All matches, from the text's start on.
fn list_matches<'a>(
    action: &[u8; 32],
    tables: &'a [u64; 448],
    last: u64,
    first: u64,
    text: &'a [u8],
    list: &mut [u8],
    starts: &mut [u16; 2048],
) -> ListEnd
    requires { (length text.now ≤ 2048) × (length text.now ≤ length list.old) × (length starts.old ≡ 2048)
        × ((rules : List Rule) × RulesReady rules action.now tables.now last first) }
    ensures { (rules : List Rule) → RulesReady rules action.now tables.now last first
        → Written (list_tokens rules text.now) result.count
        list.old list.new starts.old starts.new
        × (result.place ≡ (list_tokens rules text.now).place) }
{
    let mut count: usize = 0;
    let mut place: usize = 0;
    while place < text.len() {
        let found = scanner::longest_match(&text[place..], tables, last, first);
        let Some(m) = found else {
            return ListEnd { count, place };
        };
        let end = place + m.length;
        let number = action[m.rule as usize];
        count = put_token(number, place, count, list, starts);
        place = end;
    }
    ListEnd { count, place }
}

// Lists the tokens of a text. Both lent arrays keep what they held behind the tokens and the starts.
pub fn list_tokens(
    rules: RuleColumns,
    text: &[u8],
    list: &mut [u8],
    starts: &mut [u16; 2048],
) -> ListEnd
    requires { (length text.now ≤ 2048) × (length text.now ≤ length list.old) × (length starts.old ≡ 2048)
        × ((s : Sheet) × RulesPassed s rules) }
    ensures { (s : Sheet) → RulesPassed s rules
        → Written (list_tokens s.rules text.now) result.count
        list.old list.new starts.old starts.new
        × (result.place ≡ (list_tokens s.rules text.now).place) }
{
    let positions = position_finder::positions_of(rules);
    let tables = tables_of(positions);
    let last = positions.last;
    let first = positions.first;
    list_matches(&rules.action, &tables, last, first, text, list, starts)
}
