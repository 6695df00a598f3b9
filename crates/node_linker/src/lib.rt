// Links: the nodes of an expression with the nodes that each goes by, in one pass over the columns that hold the expression.
// Types are not computed here.
#![tactic(auto)]

ghost use Rattle.std.specs.Prelude.{◌≡◌, ◌<◌};
ghost use Rattle.node_linker.specs.Walking.{due, ParentBelow, linked, links_after, owners_after, guarded_after};
ghost use Rattle.node_linker.specs.Walking.{parts_due, CanLink};
ghost use Rattle.columns.specs.Linked.{SheetExpression, LinksOf};

use columns::{NodeColumns, NodeLinks};

// An expression that is still to come: how many fixed points are open there, how many of these are guarded, counted from the
// outermost, and the node whose right part it is, if it is one.
#[derive(Clone, Copy)]
struct Due {
    depth: u8,
    guarded: u8,
    parent: Option<u8>,
}

// The parts of a node, which are then still to come: none, one, or the left and the right.
#[derive(Clone, Copy)]
enum NodeParts {
    Leaf,
    One(Due),
    Two(Due, Due),
}

fn still_due(depth: u8, guarded: u8, parent: Option<u8>) -> Due
    ensures { result ≡ due depth guarded parent }
{
    Due {
        depth,
        guarded,
        parent,
    }
}

// A right part's node is its parent's link.
#[tactic(auto, unfolding(crate::specs::Walking::linked))]
fn put_right(link: &mut [u8; 64], parent: Option<u8>, node: u8)
    requires { ParentBelow 64 parent }
    ensures { link.new ≡ linked link.old parent node }
{
    if let Some(at) = parent {
        link[at as usize] = node;
    }
}

// Stores the link of node i, which has this tag and number and was due so, and the node itself where it is the link of another:
// of its parent, or of the variables of the fixed point that it opens.
#[tactic(auto, unfolding(crate::specs::Walking::links_after, crate::specs::Walking::owners_after))]
fn put_links(link: &mut [u8; 64], owner: &mut [u8; 64], tag: u8, number: u8, i: usize, d: Due)
    requires { CanLink tag number i d }
    ensures link_after { link.new ≡ links_after tag number i d owner.old link.old }
    ensures owner_after { owner.new ≡ owners_after tag i d owner.old }
{
    let node = i as u8;
    put_right(link, d.parent, node);
    match tag {
        2 => link[i] = number,
        5 => owner[d.depth as usize] = node,
        6 => link[i] = owner[(d.depth - 1 - number) as usize],
        7 => link[i] = node,
        _ => {}
    }
}

// The guarded variables after node i. A variable is one of them if its fixed point is among those that are guarded where it stands.
#[tactic(auto, using(basics::proofs::laws::BitLaws::shl_one), unfolding(crate::specs::Walking::guarded_after))]
fn with_guarded(guarded: u64, tag: u8, number: u8, i: usize, d: Due) -> u64
    requires { CanLink tag number i d }
    ensures { result ≡ guarded_after tag number i d guarded }
{
    if tag != 6 {
        return guarded;
    }
    let place = d.depth - 1 - number;
    if place < d.guarded {
        return guarded | (1u64 << i);
    }
    guarded
}

// The parts of node i, which has this tag and was due so.
#[tactic(auto, unfolding(crate::specs::Walking::parts_due))]
fn parts_due(tag: u8, i: usize, d: Due) -> NodeParts
    requires { (i < 64) × (d.depth < 64) }
    ensures { result ≡ parts_due tag i d }
{
    let depth = d.depth;
    let guarded = d.guarded;
    let node = i as u8;
    let left = still_due(depth, guarded, None);
    match tag {
        // In the right part every open fixed point is guarded.
        3 => NodeParts::Two(left, still_due(depth, depth, Some(node))),
        4 => NodeParts::Two(left, still_due(depth, guarded, Some(node))),
        5 => NodeParts::One(still_due(depth + 1, guarded, None)),
        // No fixed point opens, and none is guarded by it.
        7 => NodeParts::One(still_due(depth, guarded, None)),
        _ => NodeParts::Leaf,
    }
}

// The links of the expression that the columns hold. `owner` has the node of each open fixed point, the outermost first, and
// `stack` the expressions still to come, the next one last. One loop has all the arrays and stores each entry in place: an array
// that goes through a call by value is copied whole.
pub fn link_nodes(nodes: NodeColumns) -> NodeLinks
    requires { SheetExpression nodes }
    ensures { LinksOf nodes result }
{
    let count = nodes.count;
    let mut link = [0u8; 64];
    let mut guarded = 0;
    let mut owner = [0u8; 64];
    let whole = still_due(0, 0, None);
    let mut stack = [whole; 64];
    let mut height = 1;
    for i in 0..count {
        let tag = nodes.tag[i];
        let number = nodes.number[i];
        let top = height - 1;
        let d = stack[top];
        put_links(&mut link, &mut owner, tag, number, i, d);
        guarded = with_guarded(guarded, tag, number, i, d);
        match parts_due(tag, i, d) {
            NodeParts::Leaf => height = top,
            NodeParts::One(part) => stack[top] = part,
            NodeParts::Two(left, right) => {
                stack[top] = right;
                stack[height] = left;
                height += 1;
            }
        }
    }
    let tag = nodes.tag;
    NodeLinks {
        count,
        tag,
        link,
        guarded,
    }
}
