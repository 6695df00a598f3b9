// The table by which the recogniser descends: an expression's nodes, with what a descent asks of them, in one array.
// How a descent goes by it is not asked here.
#![tactic(auto)]

ghost use Rattle.std.specs.Prelude.{◌≡◌, Bool, ◌<◌};
ghost use Rattle.sheet.specs.Expression.{Expression};
ghost use Rattle.sheet.specs.Limits.{most_tokens};
ghost use Rattle.types.specs.Nodes.{nodes};
ghost use Rattle.types.specs.laws.NodeRanges.{NodeInRange};
ghost use Rattle.columns.specs.HeldNodes.{node_of, held_nodes};
ghost use Rattle.columns.specs.laws.Within.{LinksFit};
ghost use Rattle.descent_table.specs.TableOf.{TableOf};
ghost use Rattle.descent_table.specs.HoldsTyped.{HoldsTyped};
ghost use Rattle.descent_table.specs.Filling.{with_parts, UpColumn, with_row};

use columns::{NodeLinks, TypeColumns};

// Node n's entry goes on to its parts: into a left part or a repeated part the node itself is the nearest above, into any other part
// what is nearest to the node. Other nodes have no parts.
#[tactic(auto, unfolding(crate::specs::Filling::with_parts, columns::specs::HeldNodes::node_of))]
fn set_parts(up: &mut [u32; 64], tag: u8, link: u8, n: usize)
    requires { (n < 64) × ((guarded : Bool) × NodeInRange most_tokens 64 (node_of tag link guarded n)) }
    ensures { (guarded : Bool) → up.new ≡ with_parts (node_of tag link guarded n) n up.old }
{
    let above = up[n];
    let own = n as u32 + 1;
    match tag {
        3 => {
            up[n + 1] = own;
            up[usize::from(link)] = above; // Behind the right part the sequence ends too.
        }
        4 => {
            up[n + 1] = above;
            up[usize::from(link)] = above;
        }
        5 => up[n + 1] = above,
        7 => up[n + 1] = own,
        _ => {}
    }
}

// The column of the nearest nodes above. A node's parts stand behind it, so a node's entry is set before it is reached.
fn nearest_above(links: &NodeLinks) -> [u32; 64]
    requires { LinksFit links.now }
    ensures { (e : Expression) → held_nodes links.now ≡ nodes e → UpColumn e result }
{
    let mut up = [0; 64];
    for n in 0..links.count {
        set_parts(&mut up, links.tag[n], links.link[n], n);
    }
    up
}

// A node's five entries.
#[tactic(auto, unfolding(crate::specs::Filling::with_row))]
fn put_row(table: &mut [u64; 320], n: usize, tag: u8, link: u8, up: u32, null: u32, first: u32)
    requires { n < 64 }
    ensures { table.new ≡ with_row table.old n tag link up null first }
{
    table[n] = u64::from(tag);
    table[64 + n] = u64::from(link);
    table[128 + n] = u64::from(up);
    table[192 + n] = u64::from(null);
    table[256 + n] = u64::from(first);
}

// The table of an expression, out of the columns that checking made. FIRST is exact: a branch that denotes nothing begins with no token.
pub fn descent_table(links: NodeLinks, types: TypeColumns) -> [u64; 320]
    requires { (e : Expression) × HoldsTyped links types e }
    ensures { (e : Expression) → HoldsTyped links types e → TableOf e result }
{
    let up = nearest_above(&links);
    let mut table = [0; 320];
    for n in 0..links.count {
        let null = sets::has(types.null, n);
        put_row(
            &mut table,
            n,
            links.tag[n],
            links.link[n],
            up[n],
            u32::from(null),
            types.first[n],
        );
    }
    table
}
