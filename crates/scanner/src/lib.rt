// The scanner: the longest match at the front of a text, by a walk over positions that the machine's tables hold. Sets of positions are words.
// Which place of a text the front starts at, and what a match leads to, is not asked here.
#![tactic(auto)]

ghost use Rattle.std.specs.Prelude.{◌≡◌, ◌∷◌, ◌≤◌, ◌<◌, List, length, drop};
ghost use Rattle.lexer.specs.Walk.{longest_match};
ghost use Rattle.lexer.specs.Alive.{told};
ghost use Rattle.lexer.specs.SetWalk.{members, set_walk};
ghost use Rattle.lexer.specs.Positions.{Position};
ghost use Rattle.scanner.specs.Meaning.{match_of, told_of, rule_of, LeadsTo, Prepared};
ghost use Rattle.scanner.specs.Sets.{joined, first_entry, match_by, latest_ended};

// The longest match: the lowest rule that has it, and its length.
#[derive(Clone, Copy)]
pub struct Match {
    pub rule: u8,
    pub length: usize,
}

// What one walk tells: that there is no match; the longest one, if the walk ends with it; or that it went over so many bytes in vain, past the
// end of its match.
#[derive(Clone, Copy)]
pub enum WalkEnd {
    Nothing,
    Rule(u8, usize),
    InVain(usize),
}

// What a byte leads to: the positions that are held after it, and the lowest rule of which a match ends with it.
#[derive(Clone, Copy)]
struct AfterByte {
    held: u64,
    ended: Option<u8>,
}

// A step of the walk over a set as a word: its lowest position, and the set without it.
#[derive(Clone, Copy)]
struct Step {
    position: usize,
    others: u64,
}

// The lowest position stands at the number of trailing zeros, and `set - 1` differs from the set there and below.
fn lowest_first(set: u64) -> Step
    requires { 0 < set }
    ensures { members set ≡ result.position ∷ members result.others }
{
    Step {
        position: u64::trailing_zeros(set) as usize,
        others: set & (set - 1),
    }
}

// The follow sets of the kept positions, together, as the walk meets them: from the lowest position to the next, until none is left.
pub fn follow_sets(kept: u64, tables: &[u64; 448]) -> u64
    ensures { result ≡ joined (drop 256 tables.now) (set_walk kept) }
{
    let mut next: u64 = 0;
    let mut left = kept;
    while left != 0 {
        let step = lowest_first(left);
        let i = step.position;
        next |= tables[256 + i];
        left = step.others;
    }
    next
}

// The rule of the lowest position of a set: the lowest rule of all its positions, where rules never fall.
pub fn lowest_rule(ending: u64, tables: &[u64; 448]) -> Option<u8>
    ensures { rule_of result ≡ first_entry (drop 320 tables.now) (members ending) }
{
    if ending == 0 {
        return None;
    }
    let step = lowest_first(ending);
    let i = step.position;
    let word = tables[320 + i];
    let number = (word % 256) as u8;
    Some(number)
}

// What a byte leads to: the class table gives the kept positions by one `and`, and only these are walked.
fn after_byte(byte: u8, held: u64, last: u64, tables: &[u64; 448]) -> AfterByte
    requires { (ps : List Position) × Prepared ps last tables.now }
    ensures { (ps : List Position) → Prepared ps last tables.now → LeadsTo ps held byte result }
{
    let kept = held & tables[byte as usize];
    let next = follow_sets(kept, tables);
    let ended = lowest_rule(kept & last, tables);
    AfterByte { held: next, ended }
}

// A match, by the last positions that end it, none where there is no match, and its length.
#[derive(Clone, Copy)]
struct EndedBy {
    ending: u64,
    length: usize,
}

// Last positions that are kept after so many bytes replace an earlier match; where there are none, it stays.
fn latest(ending: u64, n: usize, earlier: EndedBy) -> EndedBy
    ensures { result ≡ latest_ended ending n «earlier» }
{
    if ending == 0 {
        return earlier;
    }
    EndedBy { ending, length: n }
}

// The match that last positions stand for.
pub fn found_match(ending: u64, length: usize, tables: &[u64; 448]) -> Option<Match>
    ensures { match_of result ≡ match_by (drop 320 tables.now) ending length }
{
    let rule = lowest_rule(ending, tables)?;
    Some(Match { rule, length })
}

// The longest match at the front of a text. The first byte has none before it. From then on, where a byte keeps the same positions as the
// byte before it, the same are held after it, and nothing is walked. Where it keeps others, a match that ended before it is noted as a
// set; the rule is looked up once, after the walk, and the one that `after_byte` tells is not used. The walk ends where a byte keeps no
// position. If those that the latest byte kept end a match, that is the longest, otherwise the one noted is.
pub fn longest_match<'a>(
    text: &'a [u8],
    tables: &'a [u64; 448],
    last: u64,
    first: u64,
) -> Option<Match>
    requires { (ps : List Position) × Prepared ps last tables.now }
    ensures { (ps : List Position) → Prepared ps last tables.now
        → match_of result ≡ longest_match ps first text.now }
{
    if text.len() < 1 {
        return None;
    }
    let front = text[0];
    let mut kept = first & tables[front as usize];
    if kept == 0 {
        return None;
    }
    let begun = after_byte(front, first, last, tables);
    let mut held = begun.held;
    let mut earlier = EndedBy {
        ending: 0,
        length: 0,
    };
    let mut n: usize = 1;
    while n < text.len() {
        let byte = text[n];
        let next = held & tables[byte as usize];
        if next != kept {
            if next == 0 {
                break;
            }
            earlier = latest(kept & last, n, earlier);
            let after = after_byte(byte, held, last, tables);
            held = after.held;
            kept = next;
        }
        n += 1;
    }
    let ending = kept & last;
    if ending != 0 {
        return found_match(ending, n, tables);
    }
    found_match(earlier.ending, earlier.length, tables)
}

// What one walk over a text of a byte or more tells. The walk goes as in `longest_match`, but notes no match on
// the way: where no match ends with its latest byte, the answer is only how many bytes it went over.
#[inline(always)]
pub fn walk_once<'a>(text: &'a [u8], tables: &'a [u64; 448], last: u64, first: u64) -> WalkEnd
    requires { (1 ≤ length text.now) × ((ps : List Position) × Prepared ps last tables.now) }
    ensures { (ps : List Position) → Prepared ps last tables.now → told_of result ≡ told ps first text.now }
{
    let front = text[0];
    let mut kept = first & tables[front as usize];
    if kept == 0 {
        return WalkEnd::Nothing;
    }
    let begun = after_byte(front, first, last, tables);
    let mut held = begun.held;
    let mut walked: usize = 1;
    while walked < text.len() {
        let byte = text[walked];
        let next = held & tables[byte as usize];
        if next != kept {
            if next == 0 {
                break;
            }
            let after = after_byte(byte, held, last, tables);
            held = after.held;
            kept = next;
        }
        walked += 1;
    }
    let winner = lowest_rule(kept & last, tables);
    match winner {
        None => return WalkEnd::InVain(walked),
        Some(number) => return WalkEnd::Rule(number, walked),
    }
}
