// The longest match by alive positions: a walk that keeps these alone ends with its match, so that each byte is walked once. They are found
// from the right, a block of 1,024 places at a time. When a text is read so, and what a match leads to, is not asked here.
#![tactic(auto)]

ghost use Rattle.std.specs.Prelude.{◌≡◌, List, ℕ, ◌+◌, ◌*◌, ◌≤◌, ◌<◌, length, drop, take};
ghost use Rattle.std.specs.Int.Bits.{bit_or};
ghost use Rattle.lexer.specs.Positions.{Position};
ghost use Rattle.lexer.specs.Walk.{longest_match};
ghost use Rattle.lexer.specs.Alive.{match_bytes, alive};
ghost use Rattle.scanner.specs.Meaning.{match_of};
ghost use Rattle.leading_sets.specs.Leading.{leading, Unions};
ghost use Rattle.alive_scanner.specs.Blocks.{AliveReady, BlockHolds, HeldBefore, MarksHold, AliveHeld};
ghost use Rattle.alive_scanner.specs.Ahead.{Ahead};

use scanner::Match;

// A text, and what its alive positions are found with: the last and the first positions, the machine's tables, and what leads to each set
// of positions and follows it.
#[derive(Clone, Copy)]
pub struct AliveText<'a> {
    pub text: &'a [u8],
    pub last: u64,
    pub first: u64,
    pub tables: &'a [u64; 448],
    pub unions: &'a [u64; 4096],
}

// The last positions, and those that lead to alive ones.
fn held_before(next: u64, last: u64, unions: &[u64; 4096]) -> u64
    ensures { (follow : List ℕ) → Unions follow unions.now → result ≡ bit_or last (leading follow next) }
{
    last | leading_sets::leading_of(next, unions)
}

// Puts the positions alive at the places from `from` to `to` into the block, from the right, given those at `to`; answers those at `from`.
// Where a byte leaves the same alive as the byte after it, the same is held before it. Otherwise what is held before a set is remembered by the
// byte that left it, for texts that leave the same positions alive at the same byte.
fn fill_block<'a>(
    given: &AliveText<'a>,
    from: usize,
    to: usize,
    after: u64,
    block: &mut [u64; 1024],
) -> u64
    requires { (from ≤ to) × (to ≤ length given.now.text.now) × (to ≤ from + 1024) × (length block.old ≡ 1024) }
    ensures { (length block.new ≡ 1024)
        × ((ps : List Position) → AliveReady ps given.now.last given.now.tables.now given.now.unions.now
        → after ≡ alive ps (drop to given.now.text.now)
        → (result ≡ alive ps (drop from given.now.text.now)) × BlockHolds ps given.now.text.now from to block.new) }
{
    // Read before the loop, which stores into the block.
    let text = given.text;
    let last = given.last;
    let tables = given.tables;
    let unions = given.unions;
    let mut sets = [0u64; 256];
    let mut held_sets = [last; 256];
    let mut q = to;
    let mut set = after;
    let mut held = held_before(after, last, unions);
    while from < q {
        q -= 1;
        let byte = text[q] as usize;
        let next = held & tables[byte];
        block[q % 1024] = next;
        if next != set {
            held = held_sets[byte];
            if next != sets[byte] {
                held = held_before(next, last, unions);
                sets[byte] = next;
                held_sets[byte] = held;
            }
            set = next;
        }
    }
    set
}

// The positions alive after each block, from a block on: the text is passed over once from the right.
pub fn mark_blocks<'a>(
    given: &AliveText<'a>,
    first_block: usize,
    marks: &mut [u64; 1024],
    block: &mut [u64; 1024],
)
    requires { (length given.now.text.now ≤ 1048576) × (length marks.old ≡ 1024) × (length block.old ≡ 1024) }
    ensures { (length marks.new ≡ 1024) × (length block.new ≡ 1024)
        × ((ps : List Position) → AliveReady ps given.now.last given.now.tables.now given.now.unions.now
        → MarksHold ps given.now.text.now first_block marks.new) }
{
    let mut end = given.text.len();
    let mut k = (end + 1023) / 1024;
    let mut set: u64 = 0;
    while first_block < k {
        k -= 1;
        marks[k] = set;
        let start = k * 1024;
        set = fill_block(given, start, end, set, block);
        end = start;
    }
}

// Fills the block that a place lies in from the block's mark, and answers where it ends.
fn next_block<'a>(
    given: &AliveText<'a>,
    marks: &'a [u64; 1024],
    place: usize,
    block: &mut [u64; 1024],
) -> usize
    requires { (length given.now.text.now ≤ 1048576) × (place < length given.now.text.now) × (length block.old ≡ 1024) }
    ensures { (place < result) × (result ≤ place + 1024) × (length block.new ≡ 1024)
        × ((ps : List Position) (k : ℕ) → AliveReady ps given.now.last given.now.tables.now given.now.unions.now
        → MarksHold ps given.now.text.now k marks.now → k * 1024 ≤ place
        → HeldBefore ps given.now.text.now result block.new) }
{
    let k = place / 1024;
    let start = k * 1024;
    let end = start + 1024;
    let filled = end.min(given.text.len());
    fill_block(given, start, filled, marks[k], block);
    end
}

// A match, the place after it, and where the block that is held ends.
#[derive(Clone, Copy)]
struct AliveMatch {
    found: Option<Match>,
    after: usize,
    end: usize,
}

// The longest match at a place of a text, where the block that is held ends at `held_end`, or before the place. The walk keeps alive
// positions alone: those of the byte's class stand in the block. It ends with its match, whose last byte kept a last position.
fn longest_alive<'a>(
    given: &AliveText<'a>,
    marks: &'a [u64; 1024],
    place: usize,
    held_end: usize,
    block: &mut [u64; 1024],
) -> AliveMatch
    requires { (length given.now.text.now ≤ 1048576) × (place ≤ length given.now.text.now) × (held_end ≤ place + 1024) × (length block.old ≡ 1024) }
    ensures { (place ≤ result.after) × (result.after ≤ length given.now.text.now) × (result.end ≤ result.after + 1024) × (length block.new ≡ 1024)
        × ((ps : List Position) (k : ℕ)
        → AliveHeld ps given.now.last given.now.tables.now given.now.unions.now given.now.text.now k marks.now place held_end block.old
        → (match_of result.found ≡ longest_match ps given.now.first (drop place given.now.text.now))
        × (result.after ≡ place + match_bytes (match_of result.found))
        × HeldBefore ps given.now.text.now result.end block.new) }
{
    // Read before the loop, which stores into the block.
    let text = given.text;
    let last = given.last;
    let tables = given.tables;
    let unions = given.unions;
    let mut end = held_end;
    let mut held = given.first;
    let mut kept: u64 = 0;
    let mut q = place;
    while q < text.len() {
        if end <= q {
            end = next_block(given, marks, q, block);
        }
        let next = held & block[q % 1024];
        if next == 0 {
            break;
        }
        if next != kept {
            held = leading_sets::following_of(next, unions);
            kept = next;
        }
        q += 1;
    }
    let found = scanner::found_match(kept & last, q - place, tables);
    AliveMatch {
        found,
        after: q,
        end,
    }
}

// The word that stands for a match.
pub fn match_word(rule: u8, n: usize) -> u64
    requires { n ≤ 1048576 }
    ensures { result ≡ n * 256 + rule }
{
    n as u64 * 256 + rule as u64
}

// How many matches were found, the place to which turns may go by them, and where the block that is held ends.
#[derive(Clone, Copy)]
pub struct FoundAhead {
    pub count: usize,
    pub stop: usize,
    pub end: usize,
}

// Finds matches from a place on, one after the other, until 1,024 are found, or none is, or the text ends, and puts their words into `words`.
// They lead to the place to which turns may go, so that no walk is made before it.
pub fn find_ahead<'a>(
    given: &AliveText<'a>,
    marks: &'a [u64; 1024],
    place: usize,
    held_end: usize,
    block: &mut [u64; 1024],
    words: &mut [u64; 1024],
) -> FoundAhead
    requires { (length given.now.text.now ≤ 1048576) × (place ≤ length given.now.text.now) × (held_end ≤ place + 1024) × (length block.old ≡ 1024)
        × (length words.old ≡ 1024)
        × ((ps : List Position) × (k : ℕ)
        × AliveHeld ps given.now.last given.now.tables.now given.now.unions.now given.now.text.now k marks.now place held_end block.old) }
    ensures { (result.count ≤ 1024) × (result.stop ≤ length given.now.text.now) × (place < length given.now.text.now → place < result.stop)
        × (result.end ≤ result.stop + 1024) × (length block.new ≡ 1024) × (length words.new ≡ 1024)
        × ((ps : List Position) (k : ℕ)
        → AliveHeld ps given.now.last given.now.tables.now given.now.unions.now given.now.text.now k marks.now place held_end block.old
        → Ahead ps given.now.first given.now.text.now result.stop place (take result.count words.new)
        × HeldBefore ps given.now.text.now result.end block.new) }
{
    let text = given.text;
    let mut count: usize = 0;
    let mut p = place;
    let mut end = held_end;
    while p < text.len() {
        if 1024 <= count {
            return FoundAhead {
                count,
                stop: p,
                end,
            };
        }
        let at = longest_alive(given, marks, p, end, block);
        end = at.end;
        let found = at.found;
        let Some(m) = found else {
            words[count] = 0;
            return FoundAhead {
                count: count + 1,
                stop: p + 1,
                end,
            };
        };
        words[count] = match_word(m.rule, m.length);
        count += 1;
        p = at.after;
    }
    FoundAhead {
        count,
        stop: p,
        end,
    }
}
