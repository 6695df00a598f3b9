// The normal form without a table: a node's production for a token, found by a walk over the nodes that FIRST guides. Rules and the
// numbers that nodes get in an image are not spoken of here.
#![tactic(auto)]

ghost use Rattle.std.specs.Prelude.{◌≡◌, List, [], ℕ, ◌≤◌, ◌<◌, drop, get_or};
ghost use Rattle.std.proofs.Math.Option.{some};
ghost use Rattle.basics.specs.Bits.{bit};
ghost use Rattle.sheet.specs.Expression.{Expression, size};
ghost use Rattle.normal_form.specs.Productions.{row_of, production_of};
ghost use Rattle.normal_form.specs.NormalForm.{normal_form};
ghost use Rattle.production_finder.specs.Columns.{ColumnsOf, TailCounted, tail_held, production_held};
ghost use Rattle.production_finder.specs.ColumnWalk.{column_first, next_node, column_walk};

// Whether a token is in a set of tokens. None from 32 on is.
fn has_token(set: u32, token: u8) -> bool
    ensures { result ≡ bit set token }
{
    if 32 <= token {
        return false;
    }
    sets::has(u64::from(set), usize::from(token))
}

// The columns that a walk reads, by node: tags, links and FIRST sets. They are lent and not copied.
#[derive(Clone, Copy)]
pub struct WalkColumns<'a> {
    pub tag: &'a [u8; 64],
    pub link: &'a [u8; 64],
    pub first: &'a [u32; 64],
}

// The end of a walk: the right nodes remembered, the last one first, from `start` on.
#[derive(Clone, Copy)]
struct Walked {
    start: usize,
    rights: [u8; 64],
}

// The tail of a node's production for a token: the first `count` members.
#[derive(Clone, Copy)]
pub struct Tail {
    pub count: usize,
    pub members: [u8; 32],
}

// Whether node n can begin with a token. No node from 64 on can.
#[tactic(auto, unfolding(crate::specs::ColumnWalk::column_first))]
fn begins(first: &[u32; 64], n: usize, token: u8) -> bool
    ensures { result ≡ bit (column_first first.now n) token }
{
    if 64 <= n {
        return false;
    }
    has_token(first[n], token)
}

// The node after an alternative, a fixed point or a variable: an alternative leads into the left part if that can begin with
// the token. After any other there is none.
#[tactic(auto, unfolding(crate::specs::ColumnWalk::next_node))]
fn next_node(columns: WalkColumns, n: usize, token: u8) -> Option<usize>
    requires { n < 64 }
    ensures { result ≡ next_node (get_or columns.entry.tag.now n 0) (get_or columns.entry.link.now n 0) n columns.entry.first.now token }
{
    let link = usize::from(columns.link[n]);
    match columns.tag[n] {
        4 => Some(if begins(columns.first, n + 1, token) {
            n + 1
        } else {
            link
        }),
        5 => Some(n + 1),
        6 => Some(link),
        _ => None,
    }
}

// The walk for a token from a node. It ends at ε, ⊥ or a token, and does not ask which token. A sequence remembers its right node and
// leads into its left part. A repetition does the same, and what it remembers is itself. No typed expression needs more steps than it
// has nodes.
fn walk(columns: WalkColumns, node: usize, token: u8) -> Walked
    ensures within { result.start ≤ 64 }
    ensures same { (guarded : ℕ) (tail : List ℕ)
        → column_walk columns.entry.tag.now columns.entry.link.now guarded columns.entry.first.now token 64 node [] ≡ some tail
        → drop result.start result.rights ≡ tail }
{
    let mut w = Walked {
        start: 64,
        rights: [0; 64],
    };
    let mut at = node;
    for _ in 0..64usize {
        if 64 <= at {
            return w;
        }
        let kind = columns.tag[at];
        if kind < 3 {
            return w;
        }
        if (kind == 3) | (kind == 7) {
            let start = w.start - 1;
            w.start = start;
            w.rights[start] = columns.link[at];
            at += 1;
            continue;
        }
        let Some(next) = next_node(columns, at, token) else {
            return w;
        };
        at = next;
    }
    w
}

// The remembered nodes as a tail. A tail has at most 32 members, so more are none.
fn tail_of(walked: &Walked) -> Option<Tail>
    requires { walked.now.start ≤ 64 }
    ensures counted { TailCounted result }
    ensures same { 32 ≤ walked.now.start → tail_held result ≡ some (drop walked.now.start walked.now.rights) }
{
    if walked.start < 32 {
        return None;
    }
    let found = &walked.rights[walked.start..];
    let count = found.len();
    let mut members = [0; 32];
    members[..count].copy_from_slice(found);
    Some(Tail { count, members })
}

// A node's production for a token in the normal form. A token outside FIRST has none. This is asked first, since the walk does not ask
// at which token it ends, nor whether the right nodes that it remembers derive a token sequence: in N·⊥ it would end at N. A token of
// FIRST always has one, and the walk ends at it.
pub fn production(columns: WalkColumns, node: usize, token: u8) -> Option<Tail>
    requires { (e : Expression) × ColumnsOf columns.tag.now columns.link.now columns.first.now e × (node < size e) }
    ensures counted { TailCounted result }
    ensures same { (e : Expression)
        → ColumnsOf columns.entry.tag.now columns.entry.link.now columns.entry.first.now e
        → node < size e
        → production_held token result ≡ production_of token (row_of (normal_form e) node).productions }
{
    if !begins(columns.first, node, token) {
        return None;
    }
    let walked = walk(columns, node, token);
    tail_of(&walked)
}
