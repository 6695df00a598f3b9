// What leads to a set of positions, and what follows one, by a table of unions: one word of each for every choice of eight neighbouring
// positions, so that a set is answered byte by byte. Which set is asked for, and what becomes of the answer, is not here.
#![tactic(auto)]

ghost use Rattle.std.specs.Prelude.{◌≡◌, List, ℕ, ◌*◌, ◌/◌, ◌%◌, ◌^◌, ◌≤◌, ◌<◌, drop};
ghost use Rattle.leading_sets.specs.Leading.{leading, following, leading_and_following, set_of_word, UnionsBelow, Unions, Singles};

// The positions whose follow set has a member of this set. The machine's tables have the follow sets from word 256 on.
fn leading_to(set: u64, tables: &[u64; 448]) -> u64
    ensures { result ≡ leading (drop 256 tables.now) set }
{
    let mut found: u64 = 0;
    for i in 0..64 {
        let leads = tables[256 + i] & set != 0;
        found = sets::with(found, i, leads);
    }
    found
}

// What leads to a single position; from 64 on, what follows one: its follow set.
fn single_of(y: usize, tables: &[u64; 448]) -> u64
    requires { y < 128 }
    ensures { result ≡ leading_and_following (drop 256 tables.now) (2 ^ y) }
{
    if y < 64 {
        return leading_to(1u64 << y, tables);
    }
    tables[256 + (y - 64)]
}

// What leads to each single position, and then what follows each.
fn singles_of(tables: &[u64; 448]) -> [u64; 128]
    ensures { Singles (drop 256 tables.now) result }
{
    let mut singles = [0u64; 128];
    for y in 0..128 {
        singles[y] = single_of(y, tables);
    }
    singles
}

// Word k of the table: the word of the same byte without its lowest position, which comes before word k, joined with the answer for that
// position. Where the byte has none, there is nothing to answer.
fn word_of(k: usize, unions: &[u64; 4096], singles: &[u64; 128]) -> u64
    requires { k < 4096 }
    ensures { (follow : List ℕ) → Singles follow singles.now → UnionsBelow k follow unions.now
        → result ≡ leading_and_following follow (set_of_word k) }
{
    let byte = k % 256;
    if byte == 0 {
        return 0;
    }
    let lowest = usize::trailing_zeros(byte) as usize;
    unions[k - (1usize << lowest)] | singles[8 * (k / 256) + lowest]
}

// Writes the table of unions.
pub fn fill_unions(tables: &[u64; 448], unions: &mut [u64; 4096])
    ensures { Unions (drop 256 tables.now) unions.new }
{
    let singles = singles_of(tables);
    for k in 0..4096 {
        unions[k] = word_of(k, unions, &singles);
    }
}

// The table of unions.
pub fn unions_of(tables: &[u64; 448]) -> [u64; 4096]
    ensures { Unions (drop 256 tables.now) result }
{
    let mut unions = [0u64; 4096];
    fill_unions(tables, &mut unions);
    unions
}

// The table's answer for a set, from a word on, with which one of its halves begins: one word for each byte of the set, up to its highest
// member.
fn union_of(set: u64, start: usize, unions: &[u64; 4096]) -> u64
    requires { (start ≤ 2048) × (start % 256 ≡ 0) }
    ensures { (follow : List ℕ) → Unions follow unions.now → result ≡ leading_and_following follow (set * 256 ^ (start / 256)) }
{
    let mut left = set;
    let mut at = start;
    let mut joined: u64 = 0;
    while left != 0 {
        joined |= unions[at + (left % 256) as usize];
        at += 256;
        left /= 256;
    }
    joined
}

// What leads to a set.
pub fn leading_of(set: u64, unions: &[u64; 4096]) -> u64
    ensures { (follow : List ℕ) → Unions follow unions.now → result ≡ leading follow set }
{
    union_of(set, 0, unions)
}

// What follows a set.
pub fn following_of(set: u64, unions: &[u64; 4096]) -> u64
    ensures { (follow : List ℕ) → Unions follow unions.now → result ≡ following follow set }
{
    union_of(set, 2048, unions)
}
