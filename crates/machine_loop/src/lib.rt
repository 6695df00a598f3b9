// The machine: runs a readable image over a text, turn by turn. Question 17 of a stack without an entry is answered here, the others by the
// turns. Walks are made once, and again where one is in vain; once these cost too much, the rest is read with alive positions. What is asked
// before the text is read is not here.
#![tactic(auto)]

ghost use Rattle.std.specs.Prelude.{◌≡◌, None, IsSome, List, ℕ, ◌+◌, ◌≤◌, ◌<◌, max, length, replicate, drop};
ghost use Rattle.lexer.specs.Walk.{longest_match};
ghost use Rattle.lexer.specs.Alive.{vain_bytes, told};
ghost use Rattle.scanner.specs.Meaning.{match_of, told_of};
ghost use Rattle.image.specs.Image.{Image};
ghost use Rattle.machine.specs.Trace.{Ended, answer_of};
ghost use Rattle.machine.specs.Run.{trace};
ghost use Rattle.machine.specs.Work.{least_budget};
ghost use Rattle.machine_turn.specs.Steps.{answer_held};
ghost use Rattle.machine_turn.specs.laws.Going.{Going};
ghost use Rattle.alive_scanner.specs.Ahead.{word_match, Ahead};
ghost use Rattle.alive_scanner.specs.Blocks.{AliveHeld};
ghost use Rattle.machine_loop.specs.Prepared.{tables_in, WithTables};
ghost use Rattle.machine_loop.specs.Turning.{SeenBy, SeenAt, TurnsLead, NotInVain, turn_left, WordFits, AgainLead, LeftAt, RoundLead, PlainLead, AheadLead};

use alive_scanner::AliveText;
use image_reader::ImageRead;
use machine_turn::{RunAnswer, State};
use scanner::{Match, WalkEnd};

// The scanner's table, and the rules that win in its rows.
#[derive(Clone, Copy)]
pub struct ScannerTable<'a> {
    pub table: &'a [u16],
    pub winners: &'a [u16],
}

// A readable image, by its bytes and the tables that were made of it before the text is read. With the table of its scanner walks go by rows,
// without it by sets of positions.
#[derive(Clone, Copy)]
pub struct Machine<'a> {
    pub image: &'a [u8],
    pub read: ImageRead,
    pub tables: &'a [u64; 448],
    pub productions: &'a [u16; 2048],
    pub scanner: Option<ScannerTable<'a>>,
}

// A text may be charged at least so many bytes.
const LEAST_BUDGET: usize = 4096;

// What turns from a state on leave: the answer; a state, once a place is reached; or a state where a walk went over so many bytes in vain.
#[derive(Clone, Copy)]
enum Turns {
    Done(RunAnswer),
    Reached(State),
    InVain(State, usize),
}

// What turns by walks leave, and how much of the budget is left.
#[derive(Clone, Copy)]
struct Round {
    turned: Turns,
    left: usize,
}

// What turns by matches found ahead leave: a state, or the answer as an Err, and where the block that is held ends.
#[derive(Clone, Copy)]
struct AheadTurns {
    turned: Result<State, RunAnswer>,
    end: usize,
}

// The match that a word stands for.
fn word_seen(word: u64) -> Option<Match>
    ensures { match_of result ≡ word_match word }
{
    if word == 0 {
        return None;
    }
    let rule = (word % 256) as u8;
    let length = (word / 256) as usize;
    Some(Match { rule, length })
}

// What a walk tells: the match, or how many bytes it went over in vain.
fn walk_seen(end: WalkEnd) -> Result<Option<Match>, usize>
    ensures { SeenBy result (told_of end) }
{
    match end {
        WalkEnd::Nothing => Ok(None),
        WalkEnd::Rule(rule, length) => Ok(Some(Match { rule, length })),
        WalkEnd::InVain(n) => Err(n),
    }
}

// The same image without the scanner's table.
fn without_rows<'a>(machine: &Machine<'a>) -> Machine<'a>
    ensures { result ≡ record machine.now { scanner = None } }
{
    Machine {
        scanner: None,
        ..*machine
    }
}

// One walk over the front of a text: by the rows of the image's table, or by sets of positions.
#[inline(always)]
fn walk<'a>(text: &'a [u8], machine: &Machine<'a>) -> WalkEnd
    requires { (1 ≤ length text.now) × ((i : Image) × WithTables machine.now i) }
    ensures { (i : Image)
        → WithTables machine.now i
        → told_of result ≡ told i.positions i.first text.now }
{
    let scanner = machine.scanner;
    match scanner {
        Some(rows) => table_scanner::walk_rows(text, rows.table, rows.winners),
        None => scanner::walk_once(text, machine.tables, machine.read.last, machine.read.first),
    }
}

// What is seen at a place in a turn: the match that was found ahead for it, or what one walk tells, where an Err is how many bytes the walk went
// over in vain. Turns by rows have no matches found ahead: the list is not looked at.
#[inline(always)]
fn look<'a>(
    text: &'a [u8],
    place: usize,
    machine: &Machine<'a>,
    matches: &[u64],
    turn: usize,
) -> Result<Option<Match>, usize>
    requires { (place < length text.now) × (IsSome machine.now.scanner → length matches.now ≤ turn) × ((i : Image) × WithTables machine.now i) }
    ensures { (i : Image)
        → WithTables machine.now i
        → (to : ℕ) → Ahead i.positions i.first text.now to place (drop turn matches.now)
        → SeenAt i text.now place (drop turn matches.now) result }
{
    if machine.scanner.is_none() {
        if turn < matches.len() {
            return Ok(word_seen(matches[turn]));
        }
    }
    let end = walk(&text[place..], machine);
    walk_seen(end)
}

// The turns of a readable image over a text, from a state on until a place is reached, a walk is in vain, or the run ends: the first by the
// matches that were found ahead, the others by walks. There is one loop for all ways of finding a match. It and what stands between it and a
// walk or a turn are marked to be put into their callers: of itself the compiler leaves apart what is called from two places, and a run took up
// to twice as long. So that the loop stays small, the walk that a walk in vain leads to is not made here.
#[inline(always)]
fn run_turns<'a>(
    machine: &Machine<'a>,
    matches: &[u64],
    text: &'a [u8],
    stack: &mut [u8],
    from: State,
    stop: usize,
) -> Turns
    requires { (stop ≤ length text.now) × (IsSome machine.now.scanner → length matches.now ≡ 0) × ((i : Image) × (whole : Ended) × (to : ℕ)
        × WithTables machine.now i
        × Going i machine.now.image.now (tables_in machine.now) text.now stack.old from whole
        × Ahead i.positions i.first text.now to from.place matches.now) }
    ensures { (i : Image) (whole : Ended) (to : ℕ)
        → WithTables machine.now i
        → Going i machine.now.image.now (tables_in machine.now) text.now
        stack.old from whole
        → Ahead i.positions i.first text.now to from.place matches.now
        → TurnsLead i machine.now text.now from.place
        matches.now to stop whole stack.new result }
{
    // A copy: read behind the reference at each turn, the loop was up to 1.4 times slower where the linker put it at an unlucky place.
    let here = *machine;
    let mut state = from;
    let mut turn: usize = 0;
    while state.place < stop {
        let p = state.place;
        let seen = look(text, p, &here, matches, turn);
        let found = match seen {
            Ok(found) => found,
            Err(vain) => return Turns::InVain(state, vain),
        };
        let after = machine_turn::one_turn(
            here.image,
            here.tables,
            here.productions,
            here.read.empty,
            here.read.skips,
            stack,
            found,
            state,
        );
        match after {
            Err(done) => return Turns::Done(done),
            Ok(next) => state = next,
        }
        turn += 1;
    }
    Turns::Reached(state)
}

// The same turns. The loop stands here twice, for images with a scanner's table and for those without: then no turn asks which it is, and neither
// loop holds what the other one needs. With the table in an Option and one loop for both, runs with a table took up to 1.5 times as long.
#[inline(never)]
fn turns_from<'a>(
    machine: &Machine<'a>,
    matches: &[u64],
    text: &'a [u8],
    stack: &mut [u8],
    from: State,
    stop: usize,
) -> Turns
    requires { (stop ≤ length text.now) × (IsSome machine.now.scanner → length matches.now ≡ 0) × ((i : Image) × (whole : Ended) × (to : ℕ)
        × WithTables machine.now i
        × Going i machine.now.image.now (tables_in machine.now) text.now stack.old from whole
        × Ahead i.positions i.first text.now to from.place matches.now) }
    ensures { (i : Image) (whole : Ended) (to : ℕ)
        → WithTables machine.now i
        → Going i machine.now.image.now (tables_in machine.now) text.now
        stack.old from whole
        → Ahead i.positions i.first text.now to from.place matches.now
        → TurnsLead i machine.now text.now from.place
        matches.now to stop whole stack.new result }
{
    match machine.scanner {
        Some(_) => run_turns(machine, matches, text, stack, from, stop),
        None => {
            let by_sets = without_rows(machine);
            run_turns(&by_sets, matches, text, stack, from, stop)
        }
    }
}

// The longest match at the front of a text, by a walk that notes it: by the rows of the image's table, or by sets of positions.
fn scan<'a>(text: &'a [u8], machine: &Machine<'a>) -> Option<Match>
    requires { (i : Image) × WithTables machine.now i }
    ensures { (i : Image)
        → WithTables machine.now i
        → match_of result ≡ longest_match i.positions i.first text.now }
{
    let scanner = machine.scanner;
    match scanner {
        Some(rows) => table_scanner::match_by_rows(text, rows.table, rows.winners),
        None => scanner::longest_match(text, machine.tables, machine.read.last, machine.read.first),
    }
}

// The word of a match that is not empty, or of none.
fn word_of(found: Option<Match>) -> u64
    requires { WordFits found }
    ensures { word_match result ≡ match_of found }
{
    match found {
        None => 0,
        Some(matched) => alive_scanner::match_word(matched.rule, matched.length),
    }
}

// The turn at a state where a walk went over so many bytes in vain. The walk is made again, noting the match on the way, and the turn is made
// with that match, as one found ahead.
fn turn_again<'a>(
    machine: &Machine<'a>,
    text: &'a [u8],
    stack: &mut [u8],
    state: State,
    n: usize,
) -> Turns
    requires { (length text.now ≤ 1048576) × (state.place < length text.now) × (n ≡ 0 → ⊥) × ((i : Image) × (whole : Ended)
        × WithTables machine.now i
        × Going i machine.now.image.now (tables_in machine.now) text.now stack.old state whole
        × (n ≡ vain_bytes i.positions i.first (drop state.place text.now))) }
    ensures { (i : Image) (whole : Ended)
        → WithTables machine.now i
        → Going i machine.now.image.now (tables_in machine.now) text.now
        stack.old state whole
        → n ≡ vain_bytes i.positions i.first (drop state.place text.now)
        → AgainLead i machine.now text.now state.place
        (n + n) whole stack.new result }
{
    let p = state.place;
    let found = scan(&text[p..p + n], machine);
    let words = [word_of(found); 1];
    let stop = p + 1;
    let by_sets = without_rows(machine);
    turns_from(&by_sets, &words[..1], text, stack, state, stop)
}

// Turns by walks from a state on, up to the first whose walk is in vain and is made again. Both walks are charged. A walk in vain that the
// budget does not allow is not made again: its state is answered.
fn turns_by_walks<'a>(
    machine: &Machine<'a>,
    text: &'a [u8],
    stack: &mut [u8],
    from: State,
    left: usize,
) -> Round
    requires { (length text.now ≤ 1048576) × ((i : Image) × (whole : Ended)
        × WithTables machine.now i
        × Going i machine.now.image.now (tables_in machine.now) text.now stack.old from whole
        × LeftAt i text.now from.place left) }
    ensures { (i : Image) (whole : Ended)
        → WithTables machine.now i
        → Going i machine.now.image.now (tables_in machine.now) text.now
        stack.old from whole
        → LeftAt i text.now from.place left
        → RoundLead i machine.now text.now from.place
        whole stack.new result.left result.turned }
{
    let none = [0u64; 1];
    let stop = text.len();
    let turned = turns_from(machine, &none[..0], text, stack, from, stop);
    let Turns::InVain(s, n) = turned else {
        return Round { turned, left };
    };
    if left < n + n {
        return Round { turned, left };
    }
    let again = turn_again(machine, text, stack, s, n);
    Round {
        turned: again,
        left: left - (n + n),
    }
}

// All turns from the start, by walks: the answer, or, as an Err, the state whose walk the budget does not allow to be made again. What is left
// on the stack is not promised.
fn run_plain<'a>(
    machine: &Machine<'a>,
    text: &'a [u8],
    stack: &mut [u8],
) -> Result<RunAnswer, State>
    requires { (length text.now ≤ 1048576) × ((i : Image) × WithTables machine.now i) }
    ensures { (i : Image)
        → WithTables machine.now i
        → PlainLead i machine.now text.now
        (trace i (length stack.old) text.now) stack.new result }
{
    if stack.is_empty() {
        return Ok(machine_turn::answer(17, 0, 0));
    }
    let mut state = machine_turn::first_state();
    let mut left = text.len().max(LEAST_BUDGET);
    loop {
        let round = turns_by_walks(machine, text, stack, state, left);
        left = round.left;
        let turned = round.turned;
        match turned {
            Turns::Done(done) => return Ok(done),
            Turns::InVain(s, n) => return Err(s),
            Turns::Reached(s) => {
                if text.len() <= s.place {
                    return Ok(machine_turn::at_end(machine.read.empty, stack, s));
                }
                state = s;
            }
        }
    }
}

// What is gone on from after turns by matches found ahead. No walk may be in vain there, so the last case does not come.
fn turn_left(turned: Turns) -> Result<State, RunAnswer>
    requires { NotInVain turned }
    ensures { result ≡ turn_left turned }
{
    match turned {
        Turns::Done(done) => Err(done),
        Turns::Reached(s) => Ok(s),
        Turns::InVain(s, n) => Ok(s),
    }
}

// Some turns from a state on, by matches that are found ahead with alive positions. So no walk is made.
fn turns_ahead<'a, 'b>(
    machine: &Machine<'a>,
    text: &'a [u8],
    stack: &mut [u8],
    unions: &'b [u64; 4096],
    marks: &'b [u64; 1024],
    block: &mut [u64; 1024],
    words: &mut [u64; 1024],
    state: State,
    end: usize,
) -> AheadTurns
    requires { (length text.now ≤ 1048576) × (state.place < length text.now) × (end ≤ state.place + 1024) × (length block.old ≡ 1024)
        × (length words.old ≡ 1024) × ((i : Image) × (whole : Ended) × (k : ℕ)
        × WithTables machine.now i
        × Going i machine.now.image.now (tables_in machine.now) text.now stack.old state whole
        × AliveHeld i.positions machine.now.read.last machine.now.tables.now unions.now text.now k marks.now state.place end block.old) }
    ensures { (length block.new ≡ 1024) × (length words.new ≡ 1024)
        × ((i : Image) (whole : Ended) (k : ℕ)
        → WithTables machine.now i
        → Going i machine.now.image.now (tables_in machine.now) text.now
        stack.old state whole
        → AliveHeld i.positions machine.now.read.last machine.now.tables.now unions.now text.now k marks.now state.place end
        block.old
        → AheadLead i machine.now text.now state.place
        whole stack.new block.new result.end result.turned) }
{
    let p = state.place;
    let given = AliveText {
        text,
        last: machine.read.last,
        first: machine.read.first,
        tables: machine.tables,
        unions,
    };
    let ahead = alive_scanner::find_ahead(&given, marks, p, end, block, words);
    let count = ahead.count;
    let found: &[u64] = words;
    let by_sets = without_rows(machine);
    let turned = turns_from(&by_sets, &found[..count], text, stack, state, ahead.stop);
    AheadTurns {
        turned: turn_left(turned),
        end: ahead.end,
    }
}

// The turns from a state on, with alive positions, given what leads to each set of positions and follows it, and those alive after each block.
fn run_ahead<'a, 'b>(
    machine: &Machine<'a>,
    text: &'a [u8],
    stack: &mut [u8],
    unions: &'b [u64; 4096],
    marks: &'b [u64; 1024],
    block: &mut [u64; 1024],
    from: State,
) -> RunAnswer
    requires { (length text.now ≤ 1048576) × (length block.old ≡ 1024) × ((i : Image) × (whole : Ended) × (k : ℕ)
        × WithTables machine.now i
        × Going i machine.now.image.now (tables_in machine.now) text.now stack.old from whole
        × AliveHeld i.positions machine.now.read.last machine.now.tables.now unions.now text.now k marks.now from.place 0 block.old) }
    ensures { (i : Image) (whole : Ended) (k : ℕ)
        → WithTables machine.now i
        → Going i machine.now.image.now (tables_in machine.now) text.now
        stack.old from whole
        → AliveHeld i.positions machine.now.read.last machine.now.tables.now unions.now text.now k marks.now from.place 0
        block.old
        → answer_held result ≡ answer_of whole }
{
    let mut words = [0u64; 1024];
    let mut state = from;
    let mut end: usize = 0;
    while state.place < text.len() {
        let ahead = turns_ahead(
            machine, text, stack, unions, marks, block, &mut words, state, end,
        );
        end = ahead.end;
        let turned = ahead.turned;
        match turned {
            Err(done) => return done,
            Ok(s) => state = s,
        }
    }
    machine_turn::at_end(machine.read.empty, stack, state)
}

// The turns from a state on, with alive positions: each byte is walked once. Their memory is local, 60 KiB. A function of its own, so
// that this is taken only where it is needed.
#[inline(never)]
fn run_rest<'a>(machine: &Machine<'a>, text: &'a [u8], stack: &mut [u8], from: State) -> RunAnswer
    requires { (length text.now ≤ 1048576) × ((i : Image) × (whole : Ended)
        × WithTables machine.now i
        × Going i machine.now.image.now (tables_in machine.now) text.now stack.old from whole) }
    ensures { (i : Image) (whole : Ended)
        → WithTables machine.now i
        → Going i machine.now.image.now (tables_in machine.now) text.now
        stack.old from whole
        → answer_held result ≡ answer_of whole }
{
    // Written in place, so that the table lies on the processor's stack once.
    let mut unions = [0u64; 4096];
    leading_sets::fill_unions(machine.tables, &mut unions);
    let mut marks = [0u64; 1024];
    let mut block = [0u64; 1024];
    let from_block = from.place / 1024;
    let given = AliveText {
        text,
        last: machine.read.last,
        first: machine.read.first,
        tables: machine.tables,
        unions: &unions,
    };
    alive_scanner::mark_blocks(&given, from_block, &mut marks, &mut block);
    run_ahead(machine, text, stack, &unions, &marks, &mut block, from)
}

// The answer, from what the turns by walks left.
fn run_on<'a>(
    machine: &Machine<'a>,
    text: &'a [u8],
    stack: &mut [u8],
    turned: Result<RunAnswer, State>,
) -> RunAnswer
    requires { (length text.now ≤ 1048576) × ((i : Image) × (whole : Ended)
        × WithTables machine.now i
        × PlainLead i machine.now text.now whole stack.old turned) }
    ensures { (i : Image) (whole : Ended)
        → WithTables machine.now i
        → PlainLead i machine.now text.now whole
        stack.old turned
        → answer_held result ≡ answer_of whole }
{
    match turned {
        Ok(done) => done,
        Err(at) => run_rest(machine, text, stack, at),
    }
}

// Runs a readable image over a text. The stack ends all zero.
pub fn run_image<'a>(machine: &Machine<'a>, text: &'a [u8], stack: &mut [u8]) -> RunAnswer
    requires { (length text.now ≤ 1048576) × ((i : Image) × WithTables machine.now i) }
    ensures { (stack.new ≡ replicate (length stack.old) 0) × ((i : Image)
        → WithTables machine.now i
        → answer_held result ≡ answer_of (trace i (length stack.old) text.now)) }
{
    let turned = run_plain(machine, text, stack);
    let ran = run_on(machine, text, stack, turned);
    let entries = stack.len();
    buffers::clear_front(stack, entries);
    ran
}
