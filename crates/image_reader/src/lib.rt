// The image reader: an image's bytes are read once, before the text, into tables for the machine. Question 13 is answered here,
// and no other: the text is not looked at.
#![tactic(auto)]

ghost use Rattle.std.specs.Prelude.{◌≡◌, not, ◌&&◌, List, [], ℕ, ◌+◌, ◌-◌, ◌≤◌, ◌<◌, eqb, ltb, length, drop};
ghost use Rattle.basics.specs.Bits.{bit};
ghost use Rattle.sheet.specs.Field.{between};
ghost use Rattle.image_reader.specs.Decoded.{ImageAnswers};
ghost use Rattle.class_table.specs.Holding.{Holding};
ghost use Rattle.image.specs.ImageReading.{image_field, read_flag, read_list, read_position, read_image};
ghost use Rattle.image_reader.specs.Tables.{PositionsHeld, MembersHeld, TailAt, EntryTail};
ghost use Rattle.image_reader.specs.Tables.{RowsHeld, Room, SameBelow};
ghost use Rattle.image_reader.specs.Answers.{number_reading, Answers, with_flag, FlagsRead, PositionIs, positions_in};
ghost use Rattle.image_reader.specs.Answers.{InBounds, production_in, productions_in, row_in};
ghost use Rattle.image_reader.specs.Answers.{ProductionHeld, ProductionsEntered, RowEntered};

use class_table::{hold_position, sweep};

// Question 13 and its place.
#[derive(Clone, Copy)]
pub struct Unreadable {
    pub place: usize,
}

// A number that was read, or a set of what was read, and the place after it.
#[derive(Clone, Copy)]
struct Step {
    value: u64,
    at: usize,
}

// A position's values; its last number, the follow set, ends it.
#[derive(Clone, Copy)]
struct PositionRead {
    low: u8,
    high: u8,
    rule: u8,
    last: u64,
    follow: Step,
}

// A production's rule, the place of its tail's length, and where it ends.
#[derive(Clone, Copy)]
struct ProductionRead {
    rule: u64,
    tail: usize,
    end: usize,
}

// What bounds the values of productions: the number of rules, those that skip, and the number of nonterminals.
#[derive(Clone, Copy)]
struct Bounds {
    rules: u64,
    skips: u64,
    nonterminals: u64,
}

// What stands in no array of a readable image's tables: the number of rules, those that skip, the number of positions, the last and
// the first ones, the number of nonterminals, and those with ε. No code reads the two numbers of rules and of nonterminals: the promise
// speaks of them.
#[derive(Clone, Copy)]
pub struct ImageRead {
    pub rules: usize,
    pub skips: u64,
    pub last: u64,
    pub first: u64,
    pub nonterminals: usize,
    pub empty: u64,
}

// A number in its fewest bytes and in a range, both ends included.
fn read_next(bytes: &[u8], at: usize, least: u64, most: u64) -> Result<Step, Unreadable>
    ensures { number_reading result ≡ image_field (between least most) bytes.now at }
{
    let refused = Unreadable { place: at };
    let number = number::read_number(bytes, at).ok_or(refused)?;
    if !number.fewest || number.value < least || most < number.value {
        return Err(refused);
    }
    Ok(Step {
        value: number.value,
        at: at + number.used,
    })
}

// A set with i added where a flag is 1.
fn with_flag(set: u64, i: u64, flag: u64) -> u64
    requires { i < 64 }
    ensures { result ≡ with_flag set i (eqb flag 1) }
{
    sets::with(set, i as usize, flag == 1)
}

// As many flags as `size` says, as a set.
fn read_flags(bytes: &[u8], size: Step) -> Result<Step, Unreadable>
    requires { size.value ≤ 64 }
    ensures { Answers (λ set. set.at) (λ set flags. FlagsRead size.value set.value flags) result
        (read_list (read_flag bytes.now) size.value size.at) }
{
    let mut set: u64 = 0;
    let mut next = size.at;
    for i in 0..size.value {
        let flag = read_next(bytes, next, 0, 1)?;
        set = with_flag(set, i, flag.value);
        next = flag.at;
    }
    Ok(Step {
        value: set,
        at: next,
    })
}

// Where a tail ends that has as many nonterminals as `size` says. A nonterminal is below 64 and so one byte: a tail of more than two
// members is later read from the image's bytes.
fn read_tail(bytes: &[u8], size: Step, nonterminals: u64) -> Result<usize, Unreadable>
    requires { (1 ≤ nonterminals) × (nonterminals ≤ 64) × (size.at ≤ length bytes.now) }
    ensures { Answers (λ end. end) (λ end tail. MembersHeld bytes.now size.at nonterminals size.value end tail) result
        (read_list (image_field (λ v. ltb v nonterminals) bytes.now) size.value size.at) }
{
    let mut next = size.at;
    for _i in 0..size.value {
        let member = read_next(bytes, next, 0, nonterminals - 1)?;
        next = member.at;
    }
    Ok(next)
}

// A position. Its rule is `least` or above.
fn read_position(
    bytes: &[u8],
    at: usize,
    rules: u64,
    count: u64,
    least: u64,
) -> Result<PositionRead, Unreadable>
    requires { (1 ≤ rules) × (rules ≤ 32) × (count ≤ 64) }
    ensures { Answers (λ position. position.follow.at) (λ position p. PositionIs rules position p) result
        (read_position bytes.now rules count least at) }
{
    let low = read_next(bytes, at, 0, 255)?;
    let high = read_next(bytes, low.at, low.value, 255)?;
    let rule = read_next(bytes, high.at, least, rules - 1)?;
    let last = read_next(bytes, rule.at, 0, 1)?;
    let follow = read_next(bytes, last.at, 0, sets::all_below(count as usize))?;
    Ok(PositionRead {
        low: low.value as u8,
        high: high.value as u8,
        rule: rule.value as u8,
        last: last.value,
        follow,
    })
}

// As many positions as `size` says, into the tables, and the set of those that are last.
fn read_positions(
    bytes: &[u8],
    size: Step,
    rules: u64,
    tables: &mut [u64; 448],
) -> Result<Step, Unreadable>
    requires { (1 ≤ rules) × (rules ≤ 32) × (size.value ≤ 64)
        × (length tables.old ≡ 448) × Holding [] tables.old }
    ensures { (length tables.new ≡ 448) × Answers (λ last. last.at) (λ last ps. PositionsHeld rules size.value last.value tables.new ps) result
        (positions_in bytes.now rules size.value size.at) }
{
    let mut last_ones: u64 = 0;
    let mut next = size.at;
    let mut least: u64 = 0;
    for i in 0..size.value {
        let position = read_position(bytes, next, rules, size.value, least)?;
        let follow = position.follow;
        let n = i as usize;
        let one = 1u64 << i;
        hold_position(
            position.low,
            position.high,
            position.rule,
            follow.value,
            n,
            one,
            tables,
        );
        last_ones = with_flag(last_ones, i, position.last);
        least = position.rule as u64;
        next = follow.at;
    }
    Ok(Step {
        value: last_ones,
        at: next,
    })
}

// A production's rule: `least` or above, and not skipping.
fn read_rule(bytes: &[u8], at: usize, bounds: Bounds, least: u64) -> Result<Step, Unreadable>
    requires { InBounds bounds }
    ensures { number_reading result
        ≡ image_field (λ v. between least (bounds.rules - 1) v && not (bit bounds.skips v)) bytes.now at }
{
    let rule = read_next(bytes, at, least, bounds.rules - 1)?;
    if sets::has(bounds.skips, rule.value as usize) {
        return Err(Unreadable { place: at });
    }
    Ok(rule)
}

// A production.
fn read_production(
    bytes: &[u8],
    at: usize,
    bounds: Bounds,
    least: u64,
) -> Result<ProductionRead, Unreadable>
    requires { InBounds bounds }
    ensures { Answers (λ production. production.end)
        (λ production p. ProductionHeld bytes.now bounds.nonterminals least at production p) result
        (production_in bytes.now bounds least at) }
{
    let rule = read_rule(bytes, at, bounds, least)?;
    let size = read_next(bytes, rule.at, 0, normal_form::MOST_TAIL)?;
    let end = read_tail(bytes, size, bounds.nonterminals)?;
    Ok(ProductionRead {
        rule: rule.value,
        tail: rule.at,
        end,
    })
}

// The entry for a tail whose length stands at a place of the row that starts at `start`: its two highest bits are the number of members,
// up to two of which stand in it, or 3 for more of them, and then the distance of the place from `start`. The entry of an empty tail is 1,
// since 0 is that of no production.
fn tail_entry(bytes: &[u8], start: usize, place: usize) -> u16
    requires { (start ≤ place) × (place < start + 16384)
        × ((n : ℕ) × (tail : List ℕ) × TailAt bytes.now n place tail × (n ≤ 64)) }
    ensures { (n : ℕ) (tail : List ℕ) → TailAt bytes.now n place tail → n ≤ 64
        → EntryTail bytes.now start n result tail }
{
    let size = bytes[place];
    if size == 0 {
        return 1;
    }
    if 2 < size {
        return 49152 + (place - start) as u16;
    }
    let first = bytes[place + 1] as u16;
    if size == 1 {
        return 16384 + first;
    }
    let second = bytes[place + 2] as u16;
    32768 + second * 64 + first
}

// As many productions of one nonterminal as `size` says, whose row starts at `start` and whose entries start at `base`, and where they
// end.
fn read_productions(
    bytes: &[u8],
    start: usize,
    size: Step,
    bounds: Bounds,
    base: usize,
    table: &mut [u16; 2048],
) -> Result<usize, Unreadable>
    requires { InBounds bounds × (size.at ≡ start + 2) × (size.value ≤ 32)
        × (base + 32 ≤ 2048) × Room table.old base }
    ensures { (length table.new ≡ 2048) × Answers (λ end. end)
        (λ end ps. ProductionsEntered bytes.now start bounds.nonterminals base table.old table.new ps) result
        (productions_in bytes.now bounds size.value size.at) }
{
    let mut next = size.at;
    let mut least: u64 = 0;
    for i in 0..size.value {
        let production = read_production(bytes, next, bounds, least)?;
        let rule = production.rule;
        let entry = tail_entry(bytes, start, production.tail);
        table[base + rule as usize] = entry;
        least = rule + 1;
        next = production.end;
    }
    Ok(next)
}

// The row of one nonterminal, whose entries start at `base`: its ε flag is the value.
fn read_row(
    bytes: &[u8],
    at: usize,
    bounds: Bounds,
    base: usize,
    table: &mut [u16; 2048],
) -> Result<Step, Unreadable>
    requires { InBounds bounds × (base + 32 ≤ 2048) × Room table.old base }
    ensures { (length table.new ≡ 2048) × Answers (λ row. row.at)
        (λ row r. RowEntered bytes.now at bounds.nonterminals base table.old table.new row.value r) result
        (row_in bytes.now bounds at) }
{
    let empty = read_next(bytes, at, 0, 1)?;
    let count = read_next(bytes, empty.at, 0, 32)?;
    let end = read_productions(bytes, at, count, bounds, base, table)?;
    Ok(Step {
        value: empty.value,
        at: end,
    })
}

// The rows of all nonterminals, and where each starts: the set of those with ε is the value.
fn read_rows(
    bytes: &[u8],
    at: usize,
    bounds: Bounds,
    tables: &mut [u64; 448],
    table: &mut [u16; 2048],
) -> Result<Step, Unreadable>
    requires { InBounds bounds × (length tables.old ≡ 448) × Room table.old 0 }
    ensures { (length tables.new ≡ 448) × SameBelow 384 tables.old tables.new
        × (length table.new ≡ 2048) × Answers (λ empty. empty.at)
        (λ empty rows. RowsHeld bytes.now bounds.nonterminals (drop 384 tables.new) table.new empty.value rows) result
        (read_list (row_in bytes.now bounds) bounds.nonterminals at) }
{
    let mut empty: u64 = 0;
    let mut next = at;
    for i in 0..bounds.nonterminals {
        let n = i as usize;
        tables[384 + n] = next as u64;
        let row = read_row(bytes, next, bounds, n * 32, table)?;
        empty = with_flag(empty, i, row.value);
        next = row.at;
    }
    Ok(Step {
        value: empty,
        at: next,
    })
}

// Reads an image: question 13, and the tables for the machine, into arrays that the caller has: the
// columns of its positions, the start of each row, and the table of productions, which is all zero
// before. After 13 the entries of both arrays stay free, and only their lengths are promised. What is
// required is that the arrays hold nothing, so a caller clears them before it lends them here again.
pub fn read_image(
    bytes: &[u8],
    tables: &mut [u64; 448],
    productions: &mut [u16; 2048],
) -> Result<ImageRead, Unreadable>
    requires { (length tables.old ≡ 448) × Holding [] tables.old × Room productions.old 0 }
    ensures { ImageAnswers bytes.now result
        tables.new productions.new
        (read_image bytes.now) }
{
    let version = read_next(bytes, 0, 1, 1)?;
    let rules = read_next(bytes, version.at, 1, 32)?;
    let skips = read_flags(bytes, rules)?;
    let count = read_next(bytes, skips.at, 1, 64)?;
    let last = read_positions(bytes, count, rules.value, tables)?;
    let first = read_next(bytes, last.at, 0, sets::all_below(count.value as usize))?;
    let nonterminals = read_next(bytes, first.at, 1, 64)?;
    let bounds = Bounds {
        rules: rules.value,
        skips: skips.value,
        nonterminals: nonterminals.value,
    };
    let empty = read_rows(bytes, nonterminals.at, bounds, tables, productions)?;
    if empty.at != bytes.len() {
        return Err(Unreadable { place: empty.at });
    }
    sweep(tables);
    Ok(ImageRead {
        rules: rules.value as usize,
        skips: skips.value,
        last: last.value,
        first: first.value,
        nonterminals: nonterminals.value as usize,
        empty: empty.value,
    })
}
