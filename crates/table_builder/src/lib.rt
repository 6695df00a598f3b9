// The scanner's table of an image: its rows are reached and counted, and only then written. What a run makes of the table is not asked
// here.
#![tactic(auto)]

ghost use Rattle.std.specs.Prelude.{◌≡◌, cond, List, ℕ, ◌+◌, ◌^◌, ◌≤◌, ◌<◌, leb, length, take, drop};
ghost use Rattle.std.proofs.Math.Seq.{paste};
ghost use Rattle.basics.specs.Meeting.{meet, meet_all, number_of};
ghost use Rattle.basics.specs.laws.MeetingLaws.{Met};
ghost use Rattle.lexer.specs.Table.{most_rows, table_rows, table_entries, rule_or_none, table_winners};
ghost use Rattle.basics.specs.Lists.{written_over};
ghost use Rattle.lexer.specs.SetWalk.{members};
ghost use Rattle.lexer.specs.Positions.{Position};
ghost use Rattle.scanner.specs.Meaning.{Prepared};
ghost use Rattle.scanner.specs.Sets.{first_entry};
ghost use Rattle.table_builder.specs.Rows.{RowsHeld, AllHeld, SetsBelow, sets_by, numbers_by};

// The rule of the lowest of some last positions, 32 for none.
fn winner(ending: u64, tables: &[u64; 448]) -> u16
    ensures { result ≡ rule_or_none (first_entry (drop 320 tables.now) (members ending)) }
{
    let ended = scanner::lowest_rule(ending, tables);
    ended.map_or(32, u16::from)
}

// The sets of the rows from row 1 on, as far as they have been met, and how many they are: 256 where there are more than 256 rows.
#[derive(Drop)]
struct Rows {
    count: usize,
    sets: [u64; 256],
    ghost few: { count ≤ 256 },
    ghost whole: { length sets ≡ 256 },
}

impl Rows {
    // The place of a set among those met, which is their number where it is not among them.
    fn place_of(&self, set: u64) -> usize
        ensures { result ≡ number_of (take self.now.count self.now.sets) set }
    {
        for i in 0..self.count {
            if self.sets[i] == set {
                return i;
            }
        }
        self.count
    }

    // A set joins those met, unless it has been met or 256 have.
    fn meet_set(&mut self, set: u64)
        ensures { (start : ℕ) (met : List ℕ) → set < start → RowsHeld start self.old.sets self.old.count met
            → RowsHeld start self.new.sets self.new.count (meet met set) }
    {
        let count = self.count;
        let place = self.place_of(set);
        if place < count {
            return;
        }
        if 256 <= count {
            return;
        }
        self.sets[count] = set;
        self.count = count + 1;
    }

    // The sets that a row leads to join those met, bytes rising. Most bytes keep what the byte before kept, which has been met; and so has
    // the empty set.
    fn meet_row(&mut self, held: u64, tables: &[u64; 448])
        ensures { (start : ℕ) (met : List ℕ) → SetsBelow start held tables.now → Met 0 met
            → RowsHeld start self.old.sets self.old.count met
            → RowsHeld start self.new.sets self.new.count (meet_all met (sets_by tables.now held 256)) }
    {
        let mut before: u64 = 0;
        for byte in 0..256 {
            let set = held & tables[byte];
            if set != before {
                self.meet_set(set);
                before = set;
            }
        }
    }

    // The rows of a table: the start leads to the first sets, then row by row, until none is left or there are more than 256.
    fn reach(last: u64, first: u64, tables: &[u64; 448]) -> Rows
        ensures { (ps : List Position) → Prepared ps last tables.now
            → RowsHeld (2 ^ length ps) result.sets result.count (table_rows ps first) }
    {
        let mut rows = Rows {
            count: 1,
            sets: [0; 256],
        };
        rows.meet_row(first, tables);
        let mut i: usize = 0;
        while i < rows.count {
            if 256 <= rows.count {
                break;
            }
            let held = scanner::follow_sets(rows.sets[i], tables);
            rows.meet_row(held, tables);
            i += 1;
        }
        rows
    }

    // Writes the entries of a row from `at` on: for each byte the row of the set that it keeps. Most bytes keep what the byte before kept,
    // and the empty set is row 1.
    fn fill_row(&self, table: &mut [u16], at: usize, held: u64, tables: &[u64; 448])
        requires { (number_of (take self.now.count self.now.sets) 0 ≡ 0) × (at + 256 ≤ length table.old) }
        ensures { table.new
            ≡ paste table.old at (numbers_by (take self.now.count self.now.sets) tables.now held 256) 256 }
    {
        let mut before: u64 = 0;
        let mut number: u16 = 1;
        for byte in 0..256 {
            let kept = held & tables[byte];
            if kept != before {
                number = (self.place_of(kept) + 1) as u16;
                before = kept;
            }
            table[at + byte] = number;
        }
    }

    // Writes the entries of all rows: those of row 0, which the first set leads to, then those of the others.
    fn fill_table(&self, table: &mut [u16], last: u64, first: u64, tables: &[u64; 448])
        requires { ((ps : List Position) × Prepared ps last tables.now × AllHeld (2 ^ length ps) self.now.sets self.now.count (table_rows ps first))
            × (65536 ≤ length table.old) }
        ensures { (ps : List Position) → Prepared ps last tables.now
            → AllHeld (2 ^ length ps) self.now.sets self.now.count (table_rows ps first)
            → table.new ≡ written_over (table_entries ps first) table.old }
    {
        self.fill_row(table, 0, first, tables);
        for i in 0..self.count {
            let held = scanner::follow_sets(self.sets[i], tables);
            self.fill_row(table, (i + 1) * 256, held, tables);
        }
    }

    // Writes the winners of all rows. The start has none.
    fn fill_winners(&self, winners: &mut [u16], last: u64, first: u64, tables: &[u64; 448])
        requires { ((ps : List Position) × Prepared ps last tables.now × AllHeld (2 ^ length ps) self.now.sets self.now.count (table_rows ps first))
            × (256 ≤ length winners.old) }
        ensures { (ps : List Position) → Prepared ps last tables.now
            → AllHeld (2 ^ length ps) self.now.sets self.now.count (table_rows ps first)
            → winners.new ≡ written_over (table_winners ps first) winners.old }
    {
        winners[0] = 32;
        for i in 0..self.count {
            winners[i + 1] = winner(self.sets[i] & last, tables);
        }
    }
}

// Builds the table of some positions, if it has no more than 256 rows, and tells whether it has no more. The rows are counted before the
// first entry is written.
pub fn build_table<'a>(
    table: &mut [u16],
    winners: &mut [u16],
    last: u64,
    first: u64,
    tables: &'a [u64; 448],
) -> bool
    requires { ((ps : List Position) × Prepared ps last tables.now) × (65536 ≤ length table.old) × (256 ≤ length winners.old) }
    ensures { (ps : List Position) → Prepared ps last tables.now
        → (result ≡ leb (length (table_rows ps first)) most_rows)
        × (table.new ≡ cond result (written_over (table_entries ps first) table.old) table.old)
        × (winners.new ≡ cond result (written_over (table_winners ps first) winners.old) winners.old) }
{
    let rows = Rows::reach(last, first, tables);
    if 256 <= rows.count {
        return false;
    }
    rows.fill_table(table, last, first, tables);
    rows.fill_winners(winners, last, first, tables);
    true
}
