// One turn of the machine: a rule that matched is skipped, taken by a pending nonterminal, or refused; and the end of the text.
// How a match is found, and the turns of a whole run, are not here. The first pending nonterminal is held in the state; the others are
// entries of the lent stack, one byte each, from entry 1 on, the second of all on top.
#![tactic(auto)]

ghost use Rattle.std.specs.Prelude.{◌≡◌, List, ℕ, ◌+◌, ◌≤◌, ◌<◌, length, get_or, drop};
ghost use Rattle.basics.specs.Lists.{All};
ghost use Rattle.normal_form.specs.Productions.{Row};
ghost use Rattle.machine_turn.specs.Stack.{pending, pushed, Ready};
ghost use Rattle.image_reader.specs.Tables.{part, entry_tail, EntryTail};
ghost use Rattle.machine_turn.specs.Steps.{run_answer, state_at, MatchFits};
ghost use Rattle.machine_turn.specs.Steps.{taker, replaced, all_members, end_answer, take_step, turn_step};

use scanner::Match;

// What a run returns.
#[derive(Clone, Copy, PartialEq, Eq)]
pub struct RunAnswer {
    pub number: u8,
    pub place: usize,
    pub count: usize,
}

// The pending nonterminal that takes a rule: how many are pending behind it, itself, and its entry in the table of productions.
#[derive(Clone, Copy)]
struct Taker {
    below: usize,
    nonterminal: u8,
    entry: u16,
}

// What a take leaves: so many pending nonterminals, and the first; or no pending nonterminal takes the rule; or the stack does not hold
// the tail.
#[derive(Clone, Copy)]
enum Taken {
    Pending(usize, u8),
    NoTaker,
    TooDeep,
}

// The state of a run: the place in the text, how many nonterminals are pending, the first of them (any byte where there is none), and how
// many tokens were taken.
#[derive(Clone, Copy)]
pub struct State {
    pub place: usize,
    pub depth: usize,
    pub first: u8,
    pub count: usize,
}

pub fn answer(number: u8, place: usize, count: usize) -> RunAnswer
    ensures { result ≡ run_answer number place count }
{
    RunAnswer {
        number,
        place,
        count,
    }
}

// At the start, nonterminal 0 alone is pending.
pub fn first_state() -> State
    ensures { result ≡ state_at 0 1 0 0 }
{
    State {
        place: 0,
        depth: 1,
        first: 0,
        count: 0,
    }
}

// The pending nonterminals are tried from the first: a nullable one without a production for the rule is passed over.
fn find_taker(
    productions: &[u16; 2048],
    empty: u64,
    stack: &[u8],
    depth: usize,
    first: u8,
    rule: u8,
) -> Option<Taker>
    requires { (rule < 32) × (depth ≤ length stack.now) × All (λ m. m < 64) (pending stack.now depth first) }
    ensures { result ≡ taker productions.now empty stack.now depth first rule }
{
    let mut nonterminal = first;
    for below in (0..depth).rev() {
        let entry = productions[nonterminal as usize * 32 + rule as usize];
        if entry != 0 {
            return Some(Taker {
                below,
                nonterminal,
                entry,
            });
        }
        if !sets::has(empty, nonterminal as usize) {
            return None;
        }
        nonterminal = stack[below];
    }
    None
}

// Writes a tail of so many members over the entries from `base` on, its first member on top.
fn push_tail(image: &[u8], at: usize, size: usize, stack: &mut [u8], base: usize)
    requires { (at + size ≤ length image.now) × (base + size ≤ length stack.old) }
    ensures { stack.new ≡ pushed stack.old base (part image.now at size) }
{
    let mut top = base;
    for left in (0..size).rev() {
        stack[top] = image[at + left];
        top += 1;
    }
}

// Puts a tail that stands in the image's bytes, its length first, in the place of its taker, behind which so many are pending.
fn replace_by_long(image: &[u8], at: usize, stack: &mut [u8], below: usize) -> Taken
    requires { (below < length stack.old) × (1 ≤ get_or image.now at 0)
        × (at + 1 + get_or image.now at 0 ≤ length image.now) }
    ensures { (result ≡ (replaced stack.old below
        (part image.now (at + 1) (get_or image.now at 0))).outcome)
        × (stack.new ≡ (replaced stack.old below
        (part image.now (at + 1) (get_or image.now at 0))).stack) }
{
    let size = image[at] as usize;
    if stack.len() - below < size {
        return Taken::TooDeep;
    }
    push_tail(image, at + 2, size - 1, stack, below + 1);
    Taken::Pending(below + size, image[at + 1])
}

// Puts the tail that an entry stands for in the place of its taker, behind which so many are pending. The row of the taker starts at
// `start` in the image's bytes.
fn replace_taker(image: &[u8], start: usize, entry: u16, stack: &mut [u8], below: usize) -> Taken
    requires { (below < length stack.old) × ((n : ℕ) × (tail : List ℕ) × EntryTail image.now start n entry tail) }
    ensures { (result ≡ (replaced stack.old below (entry_tail image.now start entry)).outcome)
        × (stack.new ≡ (replaced stack.old below (entry_tail image.now start entry)).stack) }
{
    let size = entry / 16384;
    if size == 0 {
        return Taken::Pending(below, stack[below]);
    }
    if size == 3 {
        return replace_by_long(image, start + (entry % 16384) as usize, stack, below);
    }
    let first = (entry % 64) as u8;
    if size == 1 {
        return Taken::Pending(below + 1, first);
    }
    if stack.len() - below < 2 {
        return Taken::TooDeep;
    }
    let top = below + 1;
    let second = (entry / 64 % 64) as u8;
    stack[top] = second;
    Taken::Pending(below + 2, first)
}

// Takes a rule: the taker's tail replaces it and those that were passed over.
fn take_rule(
    image: &[u8],
    tables: &[u64; 448],
    productions: &[u16; 2048],
    empty: u64,
    stack: &mut [u8],
    depth: usize,
    first: u8,
    rule: u8,
) -> Taken
    requires { (rule < 32)
        × ((rows : List Row) × (n : ℕ) × Ready image.now (drop 384 tables.now) productions.now empty rows n stack.old depth first) }
    ensures { (result ≡ (take_step image.now (drop 384 tables.now) productions.now empty stack.old
        depth first rule).outcome)
        × (stack.new
        ≡ (take_step image.now (drop 384 tables.now) productions.now empty stack.old
        depth first rule).stack) }
{
    let found = find_taker(productions, empty, stack, depth, first, rule);
    let Some(taker) = found else {
        return Taken::NoTaker;
    };
    let n = taker.nonterminal as usize;
    let start = tables[384 + n];
    replace_taker(image, start as usize, taker.entry, stack, taker.below)
}

// One turn: what matched at the state's place is skipped, taken or refused. A refusal is an Err, and is the run's answer. It is put into the loops
// that call it.
#[inline(always)]
pub fn one_turn(
    image: &[u8],
    tables: &[u64; 448],
    productions: &[u16; 2048],
    empty: u64,
    skips: u64,
    stack: &mut [u8],
    found: Option<Match>,
    state: State,
) -> Result<State, RunAnswer>
    requires { MatchFits found state
        × ((rows : List Row) × (k : ℕ)
        × Ready image.now (drop 384 tables.now) productions.now empty rows k stack.old state.depth state.first) }
    ensures { (result ≡ (turn_step image.now (drop 384 tables.now) productions.now empty skips stack.old
        found state).outcome)
        × (stack.new
        ≡ (turn_step image.now (drop 384 tables.now) productions.now empty skips stack.old
        found state).stack) }
{
    let Some(matched) = found else {
        return Err(answer(14, state.place, state.count));
    };
    if sets::has(skips, matched.rule as usize) {
        return Ok(State {
            place: state.place + matched.length,
            ..state
        });
    }
    let taken = take_rule(
        image,
        tables,
        productions,
        empty,
        stack,
        state.depth,
        state.first,
        matched.rule,
    );
    match taken {
        Taken::NoTaker => Err(answer(15, state.place, state.count)),
        Taken::TooDeep => Err(answer(17, state.place, state.count)),
        Taken::Pending(depth, first) => Ok(State {
            place: state.place + matched.length,
            depth,
            first,
            count: state.count + 1,
        }),
    }
}

// Whether all pending nonterminals are nullable.
fn all_nullable(empty: u64, stack: &[u8], depth: usize, first: u8) -> bool
    requires { (depth ≤ length stack.now) × All (λ m. m < 64) (pending stack.now depth first) }
    ensures { result ≡ all_members empty (pending stack.now depth first) }
{
    let mut nonterminal = first;
    for below in (0..depth).rev() {
        if !sets::has(empty, nonterminal as usize) {
            return false;
        }
        nonterminal = stack[below];
    }
    true
}

// At the text's end: 0 or 16.
pub fn at_end(empty: u64, stack: &[u8], state: State) -> RunAnswer
    requires { (state.depth ≤ length stack.now) × All (λ m. m < 64) (pending stack.now state.depth state.first) }
    ensures { result ≡ end_answer empty (pending stack.now state.depth state.first) state.place state.count }
{
    if all_nullable(empty, stack, state.depth, state.first) {
        return answer(0, state.place, state.count);
    }
    answer(16, state.place, state.count)
}
