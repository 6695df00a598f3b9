// The lexer's part of the machine's tables, filled while an image is read: the class table in words 0 to 255, the positions' follow sets
// from word 256 on, their rules from word 320 on. What a scanner makes of them is not asked here.
#![tactic(auto)]

ghost use Rattle.std.specs.Prelude.{◌≡◌, ◌<◌, length};
ghost use Rattle.class_table.specs.Holding.{Toggled, Joined, SweptOver};

// A class toggles its position, given as a set: at its low byte and just past its high byte.
fn toggle_class(low: u8, high: u8, set: u64, tables: &mut [u64; 448])
    requires { length tables.old ≡ 448 }
    ensures { Toggled tables.old set low high tables.new }
{
    tables[low as usize] ^= set;
    let past = high as usize + 1;
    if past < 256 {
        tables[past] ^= set;
    }
}

// Position n joins those that the tables hold; `one` is a one shifted to it.
pub fn hold_position(
    low: u8,
    high: u8,
    rule: u8,
    follow: u64,
    n: usize,
    one: u64,
    tables: &mut [u64; 448],
)
    requires { (length tables.old ≡ 448) × (n < 64) }
    ensures { Joined tables.old low high rule follow n one tables.new }
{
    toggle_class(low, high, one, tables);
    tables[256 + n] = follow;
    tables[320 + n] = rule as u64;
}

// The sweep: what was toggled at a byte holds from there on.
pub fn sweep(tables: &mut [u64; 448])
    requires { length tables.old ≡ 448 }
    ensures { SweptOver tables.old tables.new }
{
    let mut set: u64 = 0;
    for byte in 0..256 {
        set ^= tables[byte];
        tables[byte] = set;
    }
}
