// Least types of all nodes of an expression, and questions 8 to 10: Figure 2's equations over columns, each applied again once a
// type has changed that it goes by, and then the first node whose question fails. What a type means is not the code's to know.
#![tactic(auto)]

ghost use Rattle.std.specs.Prelude.{◌≡◌, cond, not, suc, ◌^◌, ◌<◌, ◌≤◌};
ghost use Rattle.types.specs.Types.{if_null, flap_sequence_type, is_bottom, sequence_type, alternative_type, repetition_type};
ghost use Rattle.types.specs.LeastTypes.{same_type, types_of};
ghost use Rattle.types.specs.Questions.{separable, apart, first_fault};
ghost use Rattle.columns.specs.HeldNodes.{held_nodes, held_types};
ghost use Rattle.columns.specs.Linked.{SheetExpression};
ghost use Rattle.columns.specs.laws.Within.{LinksFit};
ghost use Rattle.type_checker.specs.laws.TypeBy.{type_by, fault_by};
ghost use Rattle.type_checker.specs.Dependents.{DependentsBelow};
ghost use Rattle.type_checker.specs.Found.{language_type, linked_node, type_in, fault_of, asked};
ghost use Rattle.type_checker.specs.Raised.{RaisedIn};
ghost use Rattle.type_checker.specs.Checking.{CheckedOf};

use columns::{NodeColumns, NodeLinks, TypeColumns};
use node_linker::link_nodes;

// The type of one node.
#[derive(Clone, Copy, PartialEq, Eq)]
pub struct NodeType {
    pub null: bool,
    pub first: u32,
    pub flast: u32,
}

// The question that failed, 8 to 10, and the node at which it did.
#[derive(Clone, Copy)]
pub struct Fault {
    pub question: u8,
    pub node: u8,
}

#[derive(Clone, Copy)]
pub struct Checked {
    pub links: NodeLinks,
    pub types: TypeColumns,
    pub fault: Option<Fault>,
}

fn set_if(null: bool, s: u32) -> u32
    ensures { result ≡ if_null null s }
{
    if null { s } else { 0 }
}

// A type whose follow-last set is empty.
fn without_flast(null: bool, first: u32) -> NodeType
    ensures { language_type result ≡ record { null = null; first = first; flast = 0 } }
{
    NodeType {
        null,
        first,
        flast: 0,
    }
}

// Whether it is the type of ⊥.
#[tactic(auto, unfolding(types::specs::Types::is_bottom))]
fn is_bottom(t: NodeType) -> bool
    ensures { result ≡ is_bottom (language_type t) }
{
    !t.null & ((t.first == 0) & (t.flast == 0))
}

// The flap paper's type of a sequence.
#[tactic(auto, unfolding(types::specs::Types::flap_sequence_type))]
fn flap_sequence_type(a: NodeType, b: NodeType) -> NodeType
    ensures { language_type result ≡ flap_sequence_type (language_type a) (language_type b) }
{
    let behind = set_if(a.null, b.first);
    let inside = set_if(b.null, b.first | a.flast);
    NodeType {
        null: a.null & b.null,
        first: a.first | behind,
        flast: b.flast | inside,
    }
}

// The typing paper's: with a part of ⊥'s type it has that type too, so that an unfinished branch is apart from every other.
#[tactic(auto, unfolding(types::specs::Types::sequence_type, types::specs::Types::bottom_type))]
fn sequence_type(a: NodeType, b: NodeType) -> NodeType
    ensures { language_type result ≡ sequence_type (language_type a) (language_type b) }
{
    if is_bottom(a) | is_bottom(b) {
        return without_flast(false, 0);
    }
    flap_sequence_type(a, b)
}

#[tactic(auto, unfolding(types::specs::Types::alternative_type))]
fn alternative_type(a: NodeType, b: NodeType) -> NodeType
    ensures { language_type result ≡ alternative_type (language_type a) (language_type b) }
{
    NodeType {
        null: a.null | b.null,
        first: a.first | b.first,
        flast: a.flast | b.flast,
    }
}

// From the types of a repetition's part and of the repetition itself: ε, or the part and then the repetition.
#[tactic(auto, unfolding(types::specs::Types::repetition_type_with, types::specs::Types::epsilon_type))]
fn repetition_type(a: NodeType, b: NodeType) -> NodeType
    ensures { language_type result ≡ repetition_type (language_type a) (language_type b) }
{
    let epsilon = without_flast(true, 0);
    let again = sequence_type(a, b);
    alternative_type(epsilon, again)
}

#[tactic(auto, unfolding(types::specs::Questions::separable))]
fn separable(a: NodeType, b: NodeType) -> bool
    ensures { result ≡ separable (language_type a) (language_type b) }
{
    (a.flast & b.first == 0) & !a.null
}

#[tactic(auto, unfolding(types::specs::Questions::apart))]
fn apart(a: NodeType, b: NodeType) -> bool
    ensures { result ≡ apart (language_type a) (language_type b) }
{
    (a.first & b.first == 0) & !(a.null & b.null)
}

#[tactic(auto, unfolding(columns::specs::HeldNodes::held_type))]
fn type_at(types: &TypeColumns, i: usize) -> NodeType
    requires { i < 64 }
    ensures { language_type result ≡ type_in types.now i }
{
    NodeType {
        null: sets::has(types.null, i),
        first: types.first[i],
        flast: types.flast[i],
    }
}

// Figure 2's equation at node i.
#[tactic(auto, using(crate::proofs::Equation::node_laws), unfolding(columns::specs::HeldNodes::held_node, columns::specs::HeldNodes::node_of, crate::specs::laws::TypeBy::type_by, types::specs::Types::epsilon_type, types::specs::Types::bottom_type, types::specs::Types::token_type))]
fn node_type(links: &NodeLinks, types: &TypeColumns, i: usize) -> NodeType
    requires links_fit { LinksFit links.now }
    requires i_bound { i < links.now.count }
    ensures { language_type result ≡ type_by (type_in types.now) (linked_node links.now i) }
{
    let link = links.link[i];
    let to = link as usize;
    match links.tag[i] {
        0 => without_flast(true, 0),
        2 => without_flast(false, 1u32 << link),
        3 => sequence_type(type_at(types, i + 1), type_at(types, to)),
        4 => alternative_type(type_at(types, i + 1), type_at(types, to)),
        5 => type_at(types, i + 1),
        6 => type_at(types, to),
        7 => repetition_type(type_at(types, i + 1), type_at(types, to)),
        _ => without_flast(false, 0),
    }
}

// Node i then has what it had, and what its equation gives it: types only grow, so no flag is ever taken back. The answer is whether
// that is another type.
fn raise(links: &NodeLinks, types: &mut TypeColumns, i: usize) -> bool
    requires links_fit { LinksFit links.now }
    requires i_bound { i < links.now.count }
    ensures raised { RaisedIn links.now types.old i types.new }
    ensures changed_value { result ≡ not (same_type (type_in types.old i) (type_in types.new i)) }
{
    let own = type_at(types, i);
    let step = node_type(links, types, i);
    let grown = alternative_type(own, step);
    types.null = sets::with(types.null, i, grown.null);
    types.first[i] = grown.first;
    types.flast[i] = grown.flast;
    own != grown
}

// For each node the set of those whose equations go by its type: its parent, and the variables of a fixed point or a repetition
// itself. The remainders keep every index in range; one that counts is smaller than 64 anyway.
fn dependents(links: &NodeLinks) -> [u64; 64]
    requires { LinksFit links.now }
    ensures { DependentsBelow links.now links.now.count result }
{
    let mut sets = [0u64; 64];
    for i in 0..links.count {
        let tag = links.tag[i];
        let next = (i + 1) % 64;
        let to = (links.link[i] % 64) as usize;
        let part = (tag == 3) | (tag == 4) | (tag == 5) | (tag == 7);
        let other = (tag == 3) | (tag == 4) | (tag == 6) | (tag == 7);
        sets[next] = sets::with(sets[next], i, part);
        sets[to] = sets::with(sets[to], i, other);
    }
    sets
}

// The last member of a set that is not empty.
fn last_member(s: u64) -> usize
    requires { 0 < s }
    ensures { (result < 64) × (2 ^ result ≤ s) × (s < 2 ^ suc result) }
{
    63 - u64::leading_zeros(s) as usize
}

// The least types that solve the equations. All nodes start with the type of ⊥, and all are left to be raised. The last that is
// left goes first, since a node's parts stand behind it: so a node is raised after its parts. Where a fixed point changes, its variables
// and what stands between are raised again before anything above it.
pub fn least_types(links: NodeLinks) -> TypeColumns
    requires { LinksFit links }
    ensures { held_types links.count result ≡ types_of (held_nodes links) }
{
    let sets = dependents(&links);
    let mut types = TypeColumns {
        null: 0,
        first: [0; 64],
        flast: [0; 64],
    };
    let mut left = sets::all_below(links.count);
    while 0 < left {
        let i = last_member(left);
        let changed = raise(&links, &mut types, i);
        let own = 1u64 << i;
        let again = sets::only_if(sets[i], changed);
        left = (left - own) | again;
    }
    types
}

// A question, if what it asks for does not hold.
fn unless(holds: bool, question: u8) -> Option<u8>
    ensures { result ≡ cond holds None (Some question) }
{
    if holds { None } else { Some(question) }
}

// The question that node i is asked, if it fails.
#[tactic(auto, using(crate::proofs::Equation::node_laws), unfolding(columns::specs::HeldNodes::held_node, columns::specs::HeldNodes::node_of, crate::specs::laws::TypeBy::fault_by, crate::specs::Found::asked, types::specs::Questions::unless))]
fn node_fault(links: &NodeLinks, types: &TypeColumns, i: usize) -> Option<u8>
    requires links_fit { LinksFit links.now }
    requires i_bound { i < links.now.count }
    ensures { asked result i ≡ fault_by (type_in types.now) (linked_node links.now i) i }
{
    let to = links.link[i] as usize;
    match links.tag[i] {
        3 => unless(separable(type_at(types, i + 1), type_at(types, to)), 9),
        4 => unless(apart(type_at(types, i + 1), type_at(types, to)), 10),
        6 => unless(sets::has(links.guarded, i), 8),
        7 => unless(separable(type_at(types, i + 1), type_at(types, i + 1)), 9),
        _ => None,
    }
}

// The first node, in sheet order, whose question fails.
pub fn first_fault(links: NodeLinks, types: TypeColumns) -> Option<Fault>
    requires { LinksFit links }
    ensures { fault_of result ≡ first_fault (held_types links.count types) (held_nodes links) 0 }
{
    let count = links.count;
    for node in 0..count {
        if let Some(question) = node_fault(&links, &types, node) {
            return Some(Fault {
                question,
                node: node as u8,
            });
        }
    }
    None
}

// The links, the least types and the first failed question of the expression that the columns hold.
pub fn check_types(nodes: NodeColumns) -> Checked
    requires { SheetExpression nodes }
    ensures { CheckedOf nodes result }
{
    let links = link_nodes(nodes);
    let types = least_types(links);
    let fault = first_fault(links, types);
    Checked {
        links,
        types,
        fault,
    }
}
