// The descent of document 001's recogniser over an expression's table: one function a node kind, in a cycle of calls. Tokens stand
// at the end of their array. The table's making, and what an answer says of a text, are not here.
//
// `sequence` goes to its left part; once a part is read, `leave` finds by the table what comes after it, as Figure 6 has
// `let s' = P(g) s in P(g') s'`, up to the node at which the present call ends, the root. So only a variable makes a call that is not
// its last; where a compiler turns last calls into jumps, the others take nothing of the processor's stack. ε and ⊥ begin with no
// token, so that no function is theirs.
//
// `falling` is tokens left times 256 plus rank. Each call lowers it, or passes it on: `visit` to `enter` and `leave`, `enter` to the
// node kinds. The tests of `falling` for 0, and for fewer than one token, are for a table that is no expression's: by one that is, they
// never hold. An answer is tokens left times 2, and 1 more if the descent is stuck there.
// An answer is one number: where it was a Result or a struct, the compiler left last calls as calls, and each took of the stack.
#![tactic(auto)]

ghost use Rattle.std.specs.Prelude.{◌≡◌, ◌+◌, ◌/◌, ◌≤◌, ◌<◌, length};
ghost use Rattle.sheet.specs.Expression.{Expression};
ghost use Rattle.types.specs.Types.{HasType};
ghost use Rattle.descent_table.specs.TableOf.{tag_at, TableOf};
ghost use Rattle.descent.specs.Steps.{begins_with, stuck_at, Below, EnterGives, VisitGives, LeaveGives, FromStart};

const RANKS: usize = 256;

// Whether the next token begins a word of the node.
#[tactic(auto, unfolding(crate::specs::Steps::begins_with))]
fn begins(table: &[u64; 320], tokens: &[u8; 2048], node: usize, falling: usize) -> bool
    requires { (node < 64) × (falling < 524544) }
    ensures { result ≡ begins_with table.now tokens.now node (falling / 256) }
{
    let left = falling / RANKS;
    if left == 0 {
        return false;
    }
    let token = tokens[2048 - left];
    if 64 <= token {
        return false;
    }
    sets::has(table[256 + node], token as usize)
}

fn stuck(falling: usize) -> usize
    requires { falling < 524544 }
    ensures { result ≡ stuck_at (falling / 256) }
{
    falling / RANKS * 2 + 1
}

// A node that the next token begins. ε and ⊥ are no such nodes.
#[cycle(descent)]
fn enter(table: &[u64; 320], tokens: &[u8; 2048], node: usize, root: usize, falling: usize) -> usize
    requires { (node < 64) × (falling < 524544) }
    ensures { Below (falling / 256) result
        × ((e : Expression) → EnterGives e table.now tokens.now root node falling result) }
{
    if falling == 0 {
        return 1;
    }
    let tag = table[node];
    match tag {
        2 => token(table, tokens, node, root, falling),
        3 => sequence(table, tokens, node, root, falling),
        4 => alternative(table, tokens, node, root, falling),
        5 => fixed_point(table, tokens, node, root, falling),
        6 => variable(table, tokens, node, root, falling),
        7 => repetition(table, tokens, node, root, falling),
        _ => stuck(falling),
    }
}

// A token: it is the next, and is taken. The rank is full again.
#[cycle(descent)]
fn token(table: &[u64; 320], tokens: &[u8; 2048], node: usize, root: usize, falling: usize) -> usize
    requires { (node < 64) × (falling < 524544) × (0 < falling) }
    ensures { Below (falling / 256) result
        × ((e : Expression) → tag_at table.now node ≡ 2
        → EnterGives e table.now tokens.now root node falling result) }
{
    if falling < RANKS {
        return 1;
    }
    leave(table, tokens, node, root, falling / RANKS * RANKS - 1)
}

// A sequence: its left part. The right part comes when that is left.
#[cycle(descent)]
fn sequence(
    table: &[u64; 320],
    tokens: &[u8; 2048],
    node: usize,
    root: usize,
    falling: usize,
) -> usize
    requires { (node < 64) × (falling < 524544) × (0 < falling) }
    ensures { Below (falling / 256) result
        × ((e : Expression) → tag_at table.now node ≡ 3
        → EnterGives e table.now tokens.now root node falling result) }
{
    enter(table, tokens, (node + 1) % 64, root, falling - 1)
}

// An alternative: the part that the next token begins.
#[cycle(descent)]
fn alternative(
    table: &[u64; 320],
    tokens: &[u8; 2048],
    node: usize,
    root: usize,
    falling: usize,
) -> usize
    requires { (node < 64) × (falling < 524544) × (0 < falling) }
    ensures { Below (falling / 256) result
        × ((e : Expression) → tag_at table.now node ≡ 4
        → EnterGives e table.now tokens.now root node falling result) }
{
    let first = (node + 1) % 64;
    if begins(table, tokens, first, falling) {
        return enter(table, tokens, first, root, falling - 1);
    }
    let second = (table[64 + node] % 64) as usize;
    enter(table, tokens, second, root, falling - 1)
}

// A fixed point: its body.
#[cycle(descent)]
fn fixed_point(
    table: &[u64; 320],
    tokens: &[u8; 2048],
    node: usize,
    root: usize,
    falling: usize,
) -> usize
    requires { (node < 64) × (falling < 524544) × (0 < falling) }
    ensures { Below (falling / 256) result
        × ((e : Expression) → tag_at table.now node ≡ 5
        → EnterGives e table.now tokens.now root node falling result) }
{
    enter(table, tokens, (node + 1) % 64, root, falling - 1)
}

// A variable: its fixed point is read by a call of its own, which ends there and, unless it is stuck, has taken a token.
#[cycle(descent)]
fn variable(
    table: &[u64; 320],
    tokens: &[u8; 2048],
    node: usize,
    root: usize,
    falling: usize,
) -> usize
    requires { (node < 64) × (falling < 524544) × (0 < falling) }
    ensures { Below (falling / 256) result
        × ((e : Expression) → tag_at table.now node ≡ 6
        → EnterGives e table.now tokens.now root node falling result) }
{
    let binder = (table[64 + node] % 64) as usize;
    let answer = enter(table, tokens, binder, binder, falling - 1);
    if answer % 2 == 1 {
        return answer;
    }
    leave(table, tokens, node, root, answer / 2 * RANKS + 255)
}

// A repetition: its part. The repetition comes again when that is left.
#[cycle(descent)]
fn repetition(
    table: &[u64; 320],
    tokens: &[u8; 2048],
    node: usize,
    root: usize,
    falling: usize,
) -> usize
    requires { (node < 64) × (falling < 524544) × (0 < falling) }
    ensures { Below (falling / 256) result
        × ((e : Expression) → tag_at table.now node ≡ 7
        → EnterGives e table.now tokens.now root node falling result) }
{
    enter(table, tokens, (node + 1) % 64, root, falling - 1)
}

// Any node that denotes something: one that the next token does not begin takes nothing. ε is chosen without a look at what follows.
#[cycle(descent)]
fn visit(table: &[u64; 320], tokens: &[u8; 2048], node: usize, root: usize, falling: usize) -> usize
    requires { (node < 64) × (falling < 524544) }
    ensures { Below (falling / 256 + 1) result
        × ((e : Expression) → VisitGives e table.now tokens.now root node falling result) }
{
    if begins(table, tokens, node, falling) {
        return enter(table, tokens, node, root, falling);
    }
    if table[192 + node] == 1 {
        return leave(table, tokens, node, root, falling);
    }
    stuck(falling)
}

// A node is done: what comes after it in the sequence or the repetition in whose part it stands, unless the call ends first.
#[cycle(descent)]
fn leave(table: &[u64; 320], tokens: &[u8; 2048], node: usize, root: usize, falling: usize) -> usize
    requires { (node < 64) × (falling < 524544) }
    ensures { Below (falling / 256 + 1) result
        × ((e : Expression) → LeaveGives e table.now tokens.now root node falling result) }
{
    if falling == 0 {
        return 1;
    }
    let up = table[128 + node];
    if up <= root as u64 {
        return falling / RANKS * 2;
    }
    let above = ((up - 1) % 64) as usize;
    let next = (table[64 + above] % 64) as usize;
    visit(table, tokens, next, root, falling - 1)
}

// The descent from the start over the last `count` entries of `tokens`. An expression that denotes nothing is not entered.
pub fn descend(table: &[u64; 320], tokens: &[u8; 2048], count: usize) -> usize
    requires { (count ≤ 2048) × (length tokens.now ≡ 2048) × ((e : Expression) × HasType e × TableOf e table.now) }
    ensures { (e : Expression) → HasType e → TableOf e table.now → FromStart e tokens.now count result }
{
    let falling = count * RANKS + 255;
    if begins(table, tokens, 0, falling) {
        return enter(table, tokens, 0, 0, falling);
    }
    if table[192] == 1 {
        return count * 2;
    }
    stuck(falling)
}
