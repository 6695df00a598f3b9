// Reading a sheet's bytes into columns, from the left: questions 3 to 6 with their places. Question 2, whether the sheet is
// short enough, comes before, and the later questions are put to the columns by other crates.
#![tactic(auto)]

ghost use Rattle.std.specs.Prelude.{◌≡◌, ◌-◌, ◌≤◌, ◌<◌, length, get_or};
ghost use Rattle.sheet.specs.Reading.{sheet_field, class_after, read_sheet};
ghost use Rattle.sheet_reader.specs.Put.{pending, with_parts, no_rules, no_nodes};
ghost use Rattle.sheet_reader.specs.Turns.{in_range, answer, header};
ghost use Rattle.sheet_reader.specs.Turns.{node_answer, regex_turn, action_turn, rule_turn};
ghost use Rattle.sheet_reader.specs.Turns.{expression_turn, expression_answer, numbered_answer};
ghost use Rattle.sheet_reader.specs.Answers.{ReadsRules, ReadsExpression};
ghost use Rattle.sheet_reader.specs.Reads.{Reads};

use columns::{NodeColumns, RuleColumns};

// The page's limits.
const MOST_TOKENS: u64 = 24;

const MOST_RULES: u64 = 32;

const MOST_REGEX_NODES: usize = 256;

const MOST_CLASSES: usize = 64;

const MOST_NODES: usize = 64;

// How many tags a regex and an expression have: from 0 on, all below it are allowed.
const REGEX_TAGS: u64 = 5;

const EXPRESSION_TAGS: u64 = 8;

// The questions that reading asks: is there a number, is it allowed in its field, is there room for one more, does the sheet end.
const UNREADABLE: u8 = 3;

const FORBIDDEN: u8 = 4;

const TOO_MANY: u8 = 5;

const LEFT_OVER: u8 = 6;

// The question that fails, and its place.
#[derive(Clone, Copy)]
pub struct Refusal {
    pub question: u8,
    pub place: usize,
}

// A sheet as read.
#[derive(Clone, Copy)]
pub struct SheetColumns {
    pub tokens: u8,
    pub rules: RuleColumns,
    pub nodes: NodeColumns,
}

// What was read, and the place after it.
#[derive(Clone, Copy)]
struct Got<T> {
    value: T,
    next: usize,
}

// The token count and the rule count.
#[derive(Clone, Copy)]
struct Counted {
    tokens: u8,
    rules: u8,
}

// What comes next in the rules, with the place after it: a rule's action, or of its regex a byte class or a tag with how many
// parts it has. Or nothing more.
#[derive(Clone, Copy)]
enum RuleTurn {
    Action(u8, usize),
    Class(u8, u8, usize),
    Plain(u8, usize, usize),
    Over,
}

// An expression node: its tag, the number after it or 0, and the place after them.
#[derive(Clone, Copy)]
struct ExpressionTurn {
    tag: u8,
    number: u8,
    next: usize,
}

// The number at a place, padded or not, from `least` on and below `limit`.
fn read_field(sheet: &[u8], at: usize, least: u8, limit: u64) -> Result<Got<u8>, Refusal>
    requires { limit ≤ 256 }
    ensures { result ≡ answer (sheet_field (in_range least limit) sheet.now at) }
{
    let Some(number) = number::read_number(sheet, at) else {
        return Err(Refusal {
            question: UNREADABLE,
            place: at,
        });
    };
    if number.value < u64::from(least) || limit <= number.value {
        return Err(Refusal {
            question: FORBIDDEN,
            place: at,
        });
    }
    Ok(Got {
        value: number.value as u8,
        next: at + number.used,
    })
}

// A byte class whose tag stands at `at`, after so many classes: its low and high bytes stand from `next` on.
fn class_turn(sheet: &[u8], at: usize, next: usize, classes: usize) -> Result<RuleTurn, Refusal>
    ensures { result ≡ node_answer (class_after sheet.now (64 - classes) at next) }
{
    if classes >= MOST_CLASSES {
        return Err(Refusal {
            question: TOO_MANY,
            place: at,
        });
    }
    let low = read_field(sheet, next, 0, 256)?;
    let high = read_field(sheet, low.next, low.value, 256)?;
    Ok(RuleTurn::Class(low.value, high.value, high.next))
}

// A regex node at a place, after so many nodes and classes.
fn regex_turn(sheet: &[u8], at: usize, items: usize, classes: usize) -> Result<RuleTurn, Refusal>
    ensures { result ≡ node_answer (regex_turn sheet.now (256 - items) (64 - classes) at) }
{
    let tag = read_field(sheet, at, 0, REGEX_TAGS)?;
    if items >= MOST_REGEX_NODES {
        return Err(Refusal {
            question: TOO_MANY,
            place: at,
        });
    }
    match tag.value {
        0 => Ok(RuleTurn::Plain(0, 0, tag.next)),
        1 => class_turn(sheet, at, tag.next, classes),
        4 => Ok(RuleTurn::Plain(4, 1, tag.next)),
        two_parts => Ok(RuleTurn::Plain(two_parts, 2, tag.next)),
    }
}

// The action of the next rule, while rules are left.
fn action_turn(sheet: &[u8], at: usize, tokens: u8, left: usize) -> Result<RuleTurn, Refusal>
    requires { tokens ≤ 24 }
    ensures { result ≡ action_turn sheet.now tokens left at }
{
    if left == 0 {
        return Ok(RuleTurn::Over);
    }
    let action = read_field(sheet, at, 0, u64::from(tokens) + 1)?;
    Ok(RuleTurn::Action(action.value, action.next))
}

// A regex node while regexes are due, and otherwise the next rule's action.
fn rule_turn(
    sheet: &[u8],
    at: usize,
    tokens: u8,
    left: usize,
    due: usize,
    items: usize,
    classes: usize,
) -> Result<RuleTurn, Refusal>
    requires { tokens ≤ 24 }
    ensures { result ≡ rule_turn sheet.now tokens left due (256 - items) (64 - classes) at }
{
    if due == 0 {
        return action_turn(sheet, at, tokens, left);
    }
    regex_turn(sheet, at, items, classes)
}

// Columns with no rule.
fn no_rules() -> RuleColumns
    ensures { result ≡ no_rules }
{
    RuleColumns {
        count: 0,
        action: [0u8; 32],
        place: [0u16; 32],
        items: 0,
        tag: [0u8; 256],
        classes: 0,
        low: [0u8; 64],
        high: [0u8; 64],
    }
}

// So many rules from a place on. One loop has the columns and stores each entry in place: columns that go through a call by
// value are copied whole.
fn read_rules(sheet: &[u8], at: usize, tokens: u8, count: u8) -> Result<Got<RuleColumns>, Refusal>
    requires { (at ≤ length sheet.now) × (length sheet.now ≤ 4096) × (tokens ≤ 24) × (count ≤ 32) }
    ensures { ReadsRules sheet.now at tokens count result }
{
    let mut place = at;
    let mut due: usize = 0;
    let mut out = no_rules();
    loop {
        let rules = out.count;
        let items = out.items;
        let classes = out.classes;
        let left = count as usize - rules;
        match rule_turn(sheet, place, tokens, left, due, items, classes)? {
            RuleTurn::Over => return Ok(Got {
                value: out,
                next: place,
            }),
            RuleTurn::Action(action, next) => {
                out.action[rules] = action;
                out.place[rules] = place as u16;
                out.count = rules + 1;
                due = 1;
                place = next;
            }
            RuleTurn::Class(low, high, next) => {
                out.tag[items] = 1;
                out.items = items + 1;
                out.low[classes] = low;
                out.high[classes] = high;
                out.classes = classes + 1;
                due = due - 1;
                place = next;
            }
            RuleTurn::Plain(tag, parts, next) => {
                out.tag[items] = tag;
                out.items = items + 1;
                due = due - 1 + parts;
                place = next;
            }
        }
    }
}

// A node with this tag, and with a number below `limit` at `next`.
fn numbered_turn(sheet: &[u8], next: usize, tag: u8, limit: u64) -> Result<ExpressionTurn, Refusal>
    requires { limit ≤ 256 }
    ensures { result ≡ numbered_answer tag (sheet_field (in_range 0 limit) sheet.now next) }
{
    let number = read_field(sheet, next, 0, limit)?;
    Ok(ExpressionTurn {
        tag,
        number: number.value,
        next: number.next,
    })
}

// An expression node at a place, after so many nodes and inside so many open fixed points.
fn expression_turn(
    sheet: &[u8],
    at: usize,
    tokens: u8,
    count: usize,
    opened: u8,
) -> Result<ExpressionTurn, Refusal>
    ensures { result ≡ expression_answer (expression_turn sheet.now tokens (64 - count) opened at) }
{
    let tag = read_field(sheet, at, 0, EXPRESSION_TAGS)?;
    if count >= MOST_NODES {
        return Err(Refusal {
            question: TOO_MANY,
            place: at,
        });
    }
    match tag.value {
        2 => numbered_turn(sheet, tag.next, 2, u64::from(tokens)),
        6 => numbered_turn(sheet, tag.next, 6, u64::from(opened)),
        bare => Ok(ExpressionTurn {
            tag: bare,
            number: 0,
            next: tag.next,
        }),
    }
}

// Puts the parts of a node with this tag in the place of the next expression due, and says how many are then due. For each
// expression due, the next one last, `opened` has how many fixed points are open where it stands.
fn put_parts(opened: &mut [u8; 65], due: usize, tag: u8) -> usize
    requires { (0 < due) × (due ≤ 64) × (get_or opened.old (due - 1) 0 ≤ 64) }
    ensures { pending result opened.new ≡ with_parts (pending due opened.old) tag }
{
    let last = due - 1;
    let depth = opened[last];
    // Conditions in place of a match: for an arm of several numbers the check has only names of its own, which may change.
    if tag == 5 {
        opened[last] = depth + 1;
        return due;
    }
    if tag == 7 {
        // A repetition is no fixed point: its part is due where it was itself.
        return due;
    }
    if tag < 3 {
        return last;
    }
    if tag == 6 {
        return last;
    }
    opened[due] = depth;
    due + 1
}

// Columns with no node.
fn no_nodes() -> NodeColumns
    ensures { result ≡ no_nodes }
{
    NodeColumns {
        count: 0,
        tag: [0u8; 64],
        number: [0u8; 64],
        place: [0u16; 64],
    }
}

// One expression from a place on, with no fixed point open. Its loop stores each entry in place, as that of the rules does.
fn read_expression(sheet: &[u8], at: usize, tokens: u8) -> Result<Got<NodeColumns>, Refusal>
    requires { (at ≤ length sheet.now) × (length sheet.now ≤ 4096) }
    ensures { ReadsExpression sheet.now at tokens result }
{
    let mut place = at;
    let mut nodes = no_nodes();
    let mut opened = [0u8; 65];
    let mut due: usize = 1;
    while due > 0 {
        let count = nodes.count;
        let depth = opened[due - 1];
        let turn = expression_turn(sheet, place, tokens, count, depth)?;
        nodes.tag[count] = turn.tag;
        nodes.number[count] = turn.number;
        nodes.place[count] = place as u16;
        nodes.count = count + 1;
        due = put_parts(&mut opened, due, turn.tag);
        place = turn.next;
    }
    Ok(Got {
        value: nodes,
        next: place,
    })
}

// The version, the token count and the rule count.
fn read_header(sheet: &[u8]) -> Result<Got<Counted>, Refusal>
    ensures { result ≡ answer (header sheet.now) }
{
    let version = read_field(sheet, 0, 1, 2)?;
    let tokens = read_field(sheet, version.next, 1, MOST_TOKENS + 1)?;
    let rules = read_field(sheet, tokens.next, 1, MOST_RULES + 1)?;
    let value = Counted {
        tokens: tokens.value,
        rules: rules.value,
    };
    Ok(Got {
        value,
        next: rules.next,
    })
}

// A sheet that is short enough, as columns.
pub fn read_sheet(sheet: &[u8]) -> Result<SheetColumns, Refusal>
    requires { length sheet.now ≤ 4096 }
    ensures { Reads (read_sheet sheet.now) result }
{
    let header = read_header(sheet)?;
    let tokens = header.value.tokens;
    let rules = read_rules(sheet, header.next, tokens, header.value.rules)?;
    let nodes = read_expression(sheet, rules.next, tokens)?;
    if nodes.next != sheet.len() {
        return Err(Refusal {
            question: LEFT_OVER,
            place: nodes.next,
        });
    }
    Ok(SheetColumns {
        tokens,
        rules: rules.value,
        nodes: nodes.value,
    })
}
