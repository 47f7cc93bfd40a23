// Nodes one after the other, each known by the first eight bytes of its field: as far as they come without a fault.
ghost use Rattle.std.specs.Prelude.{◌≡◌, ◌+◌, ◌<◌, ◌≤◌, Some, None, cond, length, set, drop};
ghost use Rattle.sets.specs.Bits.{inserted, union};
ghost use Rattle.field.specs.Word.{eight, length_in, first_byte_in, first_two_in, middle_two_in, last_two_in};
ghost use Rattle.problem.specs.Held.{with_place};
ghost use Rattle.variables.specs.Variables.{set_of};
ghost use Rattle.reader.specs.Found.{unit_good, atom_good, abstraction_good, pair_good, application_good, swaps_good, permutation_good};
ghost use Rattle.reader.specs.Found.{suspension_good, with_nodes, Kept, Seen, NodeStepped};
ghost use Rattle.reader.specs.Onward.{NodesAsked, NodesRead};

use crate::rest::Rest;
use field::word;
use names::{MOST_NODES, NodeId, Variable};
use problem::{Counts, Places, keep};
use says::all_below;
use sets::VariableSet;
use variables::NodeVariables;

// The bound in the type of the count: where the count is widened for it, the compiler keeps it twice, which costs two instructions a node.
const NODES: u16 = MOST_NODES as u16;

// Where the first field stands that is not such a node, how many nodes there are then, and that field's first eight bytes. The rest itself is no part of it: it
// would hold the loan of the input for as long as one looks at this.
#[derive(Clone, Copy, PartialEq, Eq)]
pub struct Reached {
    pub place: usize,
    pub nodes: u16,
    pub word: u64,
}

// Node n is put down: what is kept of its field, and its variables. The two tables go beside each other: in one struct of references each function here
// would have to promise as well that it leaves these two references in it, since `read` says what is behind them in the end. That is no plainer.
fn put(
    places: &mut Places,
    node_variables: &mut NodeVariables,
    n: u16,
    w: u64,
    variables: VariableSet,
)
    requires { n < 512 }
    ensures { (places.new ≡ set places.old n w)
        × (node_variables.new ≡ set node_variables.old n variables.0)
        × (n < length places.old) × (n < length node_variables.old) }
{
    keep::put(places, usize::from(n), w);
    variables::put(node_variables, usize::from(n), variables);
}

// Each of these puts node n down and gives the size of its field, if the field has no fault: a function for each row of document 01's table, as in says.
fn unit(w: u64, n: u16, places: &mut Places, node_variables: &mut NodeVariables) -> Option<usize>
    requires { n < 512 }
    ensures { Kept (unit_good w) 3 n w result places.old places.new
        × Kept (unit_good w) 3 n 0 result node_variables.old node_variables.new }
{
    if word::key(w) != 0x100000 {
        return None;
    }
    put(places, node_variables, n, w, VariableSet::empty());
    Some(3)
}

fn atom(
    w: u64,
    n: u16,
    atoms: u8,
    places: &mut Places,
    node_variables: &mut NodeVariables,
) -> Option<usize>
    requires { n < 512 }
    ensures { Kept (atom_good atoms w) 4 n w result places.old places.new
        × Kept (atom_good atoms w) 4 n 0 result node_variables.old node_variables.new }
{
    if word::key(w) != 0x110001 {
        return None;
    }
    if word::first_byte(w) >= atoms {
        return None;
    }
    put(places, node_variables, n, w, VariableSet::empty());
    Some(4)
}

fn abstraction(
    w: u64,
    n: u16,
    atoms: u8,
    places: &mut Places,
    node_variables: &mut NodeVariables,
) -> Option<usize>
    requires { n < 512 }
    ensures { Kept (abstraction_good atoms n w) 6 n w result places.old places.new
        × Kept (abstraction_good atoms n w) 6 n (set_of node_variables.old (middle_two_in w)) result
        node_variables.old node_variables.new }
{
    if word::key(w) != 0x120003 {
        return None;
    }
    if word::first_byte(w) >= atoms {
        return None;
    }
    let part = word::middle_two(w);
    if part >= n {
        return None;
    }
    let inside = variables::of_node(node_variables, NodeId(part));
    put(places, node_variables, n, w, inside);
    Some(6)
}

fn pair(w: u64, n: u16, places: &mut Places, node_variables: &mut NodeVariables) -> Option<usize>
    requires { n < 512 }
    ensures { Kept (pair_good n w) 7 n w result places.old places.new
        × Kept (pair_good n w) 7 n
        (union (set_of node_variables.old (first_two_in w)) (set_of node_variables.old (last_two_in w))) result
        node_variables.old node_variables.new }
{
    if word::key(w) != 0x130004 {
        return None;
    }
    let left = word::first_two(w);
    if left >= n {
        return None;
    }
    let right = word::last_two(w);
    if right >= n {
        return None;
    }
    let in_left = variables::of_node(node_variables, NodeId(left));
    let in_right = variables::of_node(node_variables, NodeId(right));
    put(places, node_variables, n, w, in_left.union(in_right));
    Some(7)
}

fn application(
    w: u64,
    n: u16,
    places: &mut Places,
    node_variables: &mut NodeVariables,
) -> Option<usize>
    requires { n < 512 }
    ensures { Kept (application_good n w) 7 n w result places.old places.new
        × Kept (application_good n w) 7 n (set_of node_variables.old (last_two_in w)) result
        node_variables.old node_variables.new }
{
    if word::key(w) != 0x140004 {
        return None;
    }
    let part = word::last_two(w);
    if part >= n {
        return None;
    }
    let inside = variables::of_node(node_variables, NodeId(part));
    put(places, node_variables, n, w, inside);
    Some(7)
}

// The size of a suspension's field with swaps, if its length fits, it is whole and every swap's atoms are there.
fn with_swaps(rest: &Rest, atoms: u8) -> Option<usize>
    ensures { result ≡ cond (swaps_good atoms rest.now.bytes.now (length_in rest.now.word)) (Some (3 + length_in rest.now.word)) None }
{
    let n = word::length(rest.word);
    if n % 2 != 1 {
        return None;
    }
    if n > 65 {
        return None;
    }
    if rest.bytes.len() < 3 + n {
        return None;
    }
    if !all_below(&rest.bytes[4..3 + n], atoms) {
        return None;
    }
    Some(3 + n)
}

// The same for any: most have no swaps.
fn permuted(rest: &Rest, atoms: u8) -> Option<usize>
    ensures { result ≡ cond (permutation_good atoms rest.now.bytes.now rest.now.word) (Some (3 + length_in rest.now.word)) None }
{
    if word::key(rest.word) == 0x150001 {
        return Some(4);
    }
    with_swaps(rest, atoms)
}

fn suspension(
    rest: &Rest,
    c: Counts,
    places: &mut Places,
    node_variables: &mut NodeVariables,
) -> Option<usize>
    requires { c.nodes < 512 }
    ensures { Kept (suspension_good c.atoms c.variables rest.now.bytes.now rest.now.word) (3 + length_in rest.now.word) c.nodes
        (with_place rest.now.place rest.now.word) result places.old places.new
        × Kept (suspension_good c.atoms c.variables rest.now.bytes.now rest.now.word) (3 + length_in rest.now.word) c.nodes
        (inserted 64 0 (first_byte_in rest.now.word)) result node_variables.old node_variables.new }
{
    let x = word::first_byte(rest.word);
    if x >= c.variables {
        return None;
    }
    let size = permuted(rest, c.atoms)?;
    let n = usize::from(c.nodes);
    // The cast loses nothing (Rest's `short`): try_from would bring a branch that is never taken.
    keep::put_suspension(places, n, rest.word, rest.place as u16);
    variables::put(node_variables, n, VariableSet::empty().with(Variable(x)));
    Some(size)
}

// The field as one more node. The tags are document 01's own numbers: an enum of them would need this match to make it, and a second one to use it.
fn node(
    rest: &Rest,
    c: Counts,
    places: &mut Places,
    node_variables: &mut NodeVariables,
) -> Option<usize>
    requires { (c.nodes < 512) × Seen rest.now.bytes.now }
    ensures { NodeStepped rest.now.bytes.now rest.now.place c places.old node_variables.old result
        places.new node_variables.new }
{
    let w = rest.word;
    let n = c.nodes;
    match word::tag(w) {
        0x10 => unit(w, n, places, node_variables),
        0x11 => atom(w, n, c.atoms, places, node_variables),
        0x12 => abstraction(w, n, c.atoms, places, node_variables),
        0x13 => pair(w, n, places, node_variables),
        0x14 => application(w, n, places, node_variables),
        0x15 => suspension(rest, c, places, node_variables),
        _ => None,
    }
}

// The same for any bytes that are left: a node whose length fits and that is no suspension with swaps has less than eight bytes, so only where fewer are
// left it may be cut.
fn node_here(
    rest: &Rest,
    c: Counts,
    places: &mut Places,
    node_variables: &mut NodeVariables,
) -> Option<usize>
    ensures { NodeStepped rest.now.bytes.now rest.now.place c places.old node_variables.old result
        places.new node_variables.new }
{
    let left = rest.bytes.len();
    if left < 8 {
        if left < 3 + word::length(rest.word) {
            return None;
        }
    }
    if c.nodes >= NODES {
        return None;
    }
    node(rest, c, places, node_variables)
}

// The slice from each field's end is passed on to the reading of its first bytes. It moves on by each field's size, up to the first that is no node, so
// no range goes over it. The two tables stay beside each other, as at put.
pub fn nodes(
    s: &[u8],
    from: usize,
    c: Counts,
    places: &mut Places,
    node_variables: &mut NodeVariables,
) -> Reached
    requires { NodesAsked s.now from }
    ensures { NodesRead s.now from c places.old node_variables.old result
        places.new node_variables.new }
{
    let mut at = from;
    let mut c = c;
    loop {
        let rest = Rest::at(s, at);
        let Some(size) = node_here(&rest, c, places, node_variables) else {
            return Reached {
                place: at,
                nodes: c.nodes,
                word: rest.word,
            };
        };
        at += size;
        c.nodes += 1;
    }
}
