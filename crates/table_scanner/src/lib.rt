// The walk over the front of a text by the rows of a table, and the longest match that it finds: one entry for each byte walked. How the
// table is made from an image, and which place of a text the front starts at, is not asked here.
#![tactic(auto)]

ghost use Rattle.std.specs.Prelude.{◌≡◌, ◌≤◌, length};
ghost use Rattle.lexer.specs.Table.{match_by_rows};
ghost use Rattle.lexer.specs.Alive.{told_by_rows};
ghost use Rattle.scanner.specs.Meaning.{match_of, told_of};
ghost use Rattle.table_scanner.specs.Rows.{RowsIn};

use scanner::{Match, WalkEnd};

// What one walk over a text of a byte or more tells. Row 1 leads to itself and has no winner, so that the walk
// ends there. If the row that the latest byte led to has a winner, that is the longest match; otherwise the walk was in vain. The first
// byte's entry stands in row 0, at the byte itself; a row that stays needs no new address.
#[inline(always)]
pub fn walk_rows<'a>(text: &'a [u8], table: &'a [u16], winners: &'a [u16]) -> WalkEnd
    requires { (1 ≤ length text.now) × RowsIn table.now winners.now }
    ensures { told_of result ≡ told_by_rows table.now winners.now text.now }
{
    let mut row = table[text[0] as usize] as usize;
    if row == 1 {
        return WalkEnd::Nothing;
    }
    let mut n: usize = 1;
    while n < text.len() {
        let next = table[row * 256 + text[n] as usize] as usize;
        if next != row {
            if next == 1 {
                break;
            }
            row = next;
        }
        n += 1;
    }
    let winner = winners[row];
    if winner != 32 {
        return WalkEnd::Rule(winner as u8, n);
    }
    WalkEnd::InVain(n)
}

// The longest match at the front of a text. Each row's winner is looked up on the way, and the latest one kept: two entries are read for a
// byte. So this is the walk that is made again, to find the match of a walk in vain.
pub fn match_by_rows<'a>(text: &'a [u8], table: &'a [u16], winners: &'a [u16]) -> Option<Match>
    requires { RowsIn table.now winners.now }
    ensures { match_of result ≡ match_by_rows table.now winners.now text.now }
{
    let mut winner: u16 = 32;
    let mut length: usize = 0;
    let mut row: usize = 0;
    let mut n: usize = 0;
    while n < text.len() {
        let next = table[row * 256 + text[n] as usize] as usize;
        let latest = winners[next];
        row = next;
        n += 1;
        if latest != 32 {
            winner = latest;
            length = n;
        }
    }
    if winner == 32 {
        return None;
    }
    Some(Match {
        rule: winner as u8,
        length,
    })
}
