// Resolving all demands of a finished run under its bindings, by 003's freshness rules. The trees are not walked: 512 nodes share into 2^511 leaves.
// Of each node and each variable the set of atoms that are to be fresh for it is kept: `visit` goes through the parts of one node, and here each node of
// which something is demanded is visited, and what comes to a bound variable is passed on to its value. Whether a demand fails is read off the marks in
// the end.
#![tactic(auto)]

ghost use Rattle.std.specs.Prelude.{◌≡◌, true, ℕ, ◌≤◌, ◌<◌, ◌^◌, length, get_or};
ghost use Rattle.permutation.specs.Table.{image};
ghost use Rattle.problem.specs.Held.{problem_of};
ghost use Rattle.problem.specs.Look.{Standing, NodeStands, form_now};
ghost use Rattle.bindings.specs.Bindings.{node_of, images_of};
ghost use Rattle.demands.specs.Demands.{asked_of_nodes, asked_of_variables};
ghost use Rattle.visit.specs.Pairs.{Pair};
ghost use Rattle.visit.specs.Visited.{Marked, sent_into, Looked, Settled};
ghost use Rattle.fresh.specs.Resolved.{PairsResolved};
ghost use Rattle.fresh.specs.Marks.{seen_in, done_in, Demanded, SoFar, Begun, LookedThrough, value_at, Bound, atom_of, new_at, Waits, NextBetween};
ghost use Rattle.fresh.specs.Marks.{LastBelow, Next, Passed, clash_at, Clashed};

use bindings::Shown;
use demands::{Asked, Sets};
use names::{Atom, MOST_NODES, NodeId, Variable};
use problem::{Form, Input};
use sets::{AtomSet, VariableSet};
use visit::{add_atoms, atoms_at, visit};

// Two columns, as those of the demands: by node the atoms that were seen there, and by variable those that were passed on to its value. Columns and no
// table of structs: include/cheesetrestle.h has this form.
pub type Marks = [Sets; 2];

pub const EMPTY_MARKS: Marks = [[0; MOST_NODES]; 2];

// The column of what was seen, and that of what was passed on.
const SEEN: usize = 0;

const DONE: usize = 1;

// The atoms that a variable's value sends into the set from outside: its images are read where they lie.
// Where a number is cast to a smaller type here and below it is less than that type holds: `try_from` would bring a branch that is never taken.
fn through_images(bindings: &Shown, n: usize, x: Variable, atoms: AtomSet) -> AtomSet
    requires { (n ≤ 32) × (x.0 < 64) }
    ensures { result.0 ≡ sent_into n (image (images_of n bindings.now.values.now x.0)) atoms.0 }
{
    let mut r = AtomSet::empty();
    for i in 0..n {
        let a = Atom(i as u8);
        if atoms.has(bindings::image_of(bindings.values, n, x, a)) {
            r = r.with(a);
        }
    }
    r
}

// The atoms that were asked of a variable and not yet passed on; those that were are a word, as their table's type says. Here and below bound, asked and
// marks go beside each other: close changes two of them at each turn, so a struct of the three would be made anew at each.
#[tactic(auto, unfolding(crate::specs::Marks::new_at))]
fn new_at(asked: &Asked, marks: &Marks, x: Variable) -> AtomSet
    requires { x.0 < 64 }
    ensures new { result.0 ≡ new_at (asked_of_variables asked.now) (done_in marks.now) x.0 }
    ensures word { get_or (done_in marks.now) x.0 0 < 2 ^ 32 }
{
    demands::of_variable(asked, x).minus(atoms_at(&marks[DONE], usize::from(x.0)))
}

// Whether a variable is bound and has such atoms.
fn waits(bound: VariableSet, asked: &Asked, marks: &Marks, x: Variable) -> bool
    requires { x.0 < 64 }
    ensures { Waits bound.0 (asked_of_variables asked.now) (done_in marks.now) x.0 result }
{
    bound.has(x) && !new_at(asked, marks, x).is_empty()
}

// The first variable that waits, of those from one up to another. Of this and `last_below` not one is made: what they promise differs (of those from one
// on, of those below it), and so do the invariants.
fn next_between(
    bound: VariableSet,
    asked: &Asked,
    marks: &Marks,
    from: Variable,
    to: Variable,
) -> Option<Variable>
    requires { (from.0 ≤ to.0) × (to.0 ≤ 64) }
    ensures { NextBetween bound.0 (asked_of_variables asked.now) (done_in marks.now) from.0 to.0 result }
{
    for x in from.0..to.0 {
        if waits(bound, asked, marks, Variable(x)) {
            return Some(Variable(x));
        }
    }
    None
}

// The last variable that waits, of those below one.
fn last_below(bound: VariableSet, asked: &Asked, marks: &Marks, from: Variable) -> Option<Variable>
    requires { from.0 ≤ 64 }
    ensures { LastBelow bound.0 (asked_of_variables asked.now) (done_in marks.now) from.0 result }
{
    for x in (0..from.0).rev() {
        if waits(bound, asked, marks, Variable(x)) {
            return Some(Variable(x));
        }
    }
    None
}

// A variable that waits: going up the nearest from one on, or else the nearest below it; going down the other way round. Which one it is does not
// matter to what is resolved: the direction is a hint. A chain of values that each hold the variable before, or the one after, is so followed from
// neighbour to neighbour, and a turn of `close` does not pass again all that were found to wait no more. The variables in use are those below `end`.
// `up` stays a flag: it is what comparing two variables tells, and an enum of two would be made of that by an `if` and taken apart by another.
fn next(
    bound: VariableSet,
    asked: &Asked,
    marks: &Marks,
    from: Variable,
    up: bool,
    end: Variable,
) -> Option<Variable>
    requires { (from.0 ≤ end.0) × (end.0 ≤ 64) }
    ensures { Next bound.0 (asked_of_variables asked.now) (done_in marks.now) end.0 result }
{
    if up {
        return next_between(bound, asked, marks, from, end).or_else(|| last_below(
            bound, asked, marks, from,
        ));
    }
    last_below(bound, asked, marks, from).or_else(|| next_between(bound, asked, marks, from, end))
}

// Passes a bound variable's new atoms on to its value.
fn pass_on(
    input: &Input,
    bindings: &Shown,
    asked: &mut Asked,
    marks: &mut Marks,
    atoms: usize,
    x: Variable,
)
    requires held { Standing input.now.bytes.now input.now.places.now × (atoms ≡ (problem_of input.now.bytes.now).atoms) }
    requires there { (x.0 < 64) × (node_of bindings.now.made.now x.0 < length (problem_of input.now.bytes.now).nodes) }
    requires waits { 0 < new_at (asked_of_variables asked.old) (done_in marks.old) x.0 }
    requires settled { Settled (problem_of input.now.bytes.now).nodes (SoFar (problem_of input.now.bytes.now) asked.old marks.old) }
    ensures { Passed (problem_of input.now.bytes.now) bindings.now.made.now bindings.now.values.now x.0
        asked.old marks.old asked.new marks.new }
{
    let new = new_at(asked, marks, x);
    add_atoms(&mut marks[DONE], usize::from(x.0), new);
    let sent = through_images(bindings, atoms, x, new);
    let node = bindings::node_of(bindings.made, x);
    visit(
        input,
        sent,
        node,
        &mut marks[SEEN],
        &mut asked[demands::VARIABLES],
    );
}

// Passes on all that waits. It goes on in the direction in which the last variable was found.
fn close(
    input: &Input,
    bound: VariableSet,
    bindings: &Shown,
    asked: &mut Asked,
    marks: &mut Marks,
    atoms: usize,
    variables: usize,
)
    requires held { Standing input.now.bytes.now input.now.places.now
        × Bound (problem_of input.now.bytes.now) bound.0 bindings.now.made.now bindings.now.values.now }
    requires sizes { (atoms ≡ (problem_of input.now.bytes.now).atoms) × (variables ≡ (problem_of input.now.bytes.now).variables) }
    requires none { (i : ℕ) → i < variables → get_or (done_in marks.old) i 0 ≡ 0 }
    requires looked { (w : Pair) → SoFar (problem_of input.now.bytes.now) asked.old marks.old w
        → Looked (problem_of input.now.bytes.now).nodes (value_at (problem_of input.now.bytes.now).atoms bound.0 bindings.now.made.now bindings.now.values.now)
        (SoFar (problem_of input.now.bytes.now) asked.old marks.old) w }
    requires small { (w : Pair) → SoFar (problem_of input.now.bytes.now) asked.old marks.old w → atom_of w < (problem_of input.now.bytes.now).atoms }
    ensures finished { LookedThrough (problem_of input.now.bytes.now).nodes
        (value_at (problem_of input.now.bytes.now).atoms bound.0 bindings.now.made.now bindings.now.values.now)
        (SoFar (problem_of input.now.bytes.now) asked.old marks.old)
        (SoFar (problem_of input.now.bytes.now) asked.new marks.new) }
    ensures kept { asked_of_nodes asked.new ≡ asked_of_nodes asked.old }
{
    let end = Variable(variables as u8);
    let mut x = Variable(0);
    let mut up = true;
    while let Some(y) = next(bound, asked, marks, x, up, end) {
        up = x <= y;
        x = y;
        pass_on(input, bindings, asked, marks, atoms, x);
    }
}

// Visits each node of which atoms are demanded.
fn visit_demanded(input: &Input, asked: &mut Asked, seen: &mut Sets, nodes: usize)
    requires held { Standing input.now.bytes.now input.now.places.now × (nodes ≡ length (problem_of input.now.bytes.now).nodes) }
    requires none { (i : ℕ) → i < nodes → get_or seen.old i 0 ≡ 0 }
    ensures begun { Begun (problem_of input.now.bytes.now).nodes (Demanded (problem_of input.now.bytes.now) asked.old)
        (Marked (problem_of input.now.bytes.now) seen.new (asked_of_variables asked.new)) }
    ensures kept { asked_of_nodes asked.new ≡ asked_of_nodes asked.old }
{
    for n in 0..nodes {
        let node = NodeId(n as u16);
        let atoms = demands::of_node(asked, node);
        if atoms.is_empty() {
            continue;
        }
        visit(input, atoms, node, seen, &mut asked[demands::VARIABLES]);
    }
}

// The same, with nothing to do where nothing is demanded.
fn begin(input: &Input, asked: &mut Asked, seen: &mut Sets, nodes: usize)
    requires held { Standing input.now.bytes.now input.now.places.now × (nodes ≡ length (problem_of input.now.bytes.now).nodes) }
    requires none { (i : ℕ) → i < nodes → get_or seen.old i 0 ≡ 0 }
    ensures begun { Begun (problem_of input.now.bytes.now).nodes (Demanded (problem_of input.now.bytes.now) asked.old)
        (Marked (problem_of input.now.bytes.now) seen.new (asked_of_variables asked.new)) }
    ensures kept { asked_of_nodes asked.new ≡ asked_of_nodes asked.old }
{
    if demands::any_of_nodes(asked, nodes) {
        visit_demanded(input, asked, seen, nodes);
    }
}

// Whether a node is an atom of the set.
fn clashes_at(input: &Input, node: NodeId, atoms: AtomSet) -> bool
    requires { NodeStands input.now.bytes.now input.now.places.now node.0 }
    ensures { result ≡ clash_at (form_now input.now.bytes.now node.0) atoms.0 }
{
    match input.form_of(node) {
        Form::Atom(a) => atoms.has(a),
        _ => false,
    }
}

// Whether an atom is marked for a node that is that atom. The form is looked at only where atoms are marked.
fn clashing_marked(input: &Input, seen: &Sets, nodes: usize) -> bool
    requires { Standing input.now.bytes.now input.now.places.now × (nodes ≡ length (problem_of input.now.bytes.now).nodes) }
    ensures { Clashed (problem_of input.now.bytes.now).nodes seen.now result }
{
    for n in 0..nodes {
        let atoms = atoms_at(seen, n);
        if atoms.is_empty() {
            continue;
        }
        if clashes_at(input, NodeId(n as u16), atoms) {
            return true;
        }
    }
    false
}

// The same, with nothing to do where nothing is marked.
fn clashing(input: &Input, seen: &Sets, nodes: usize) -> bool
    requires { Standing input.now.bytes.now input.now.places.now × (nodes ≡ length (problem_of input.now.bytes.now).nodes) }
    ensures { Clashed (problem_of input.now.bytes.now).nodes seen.now result }
{
    demands::any(seen, nodes) && clashing_marked(input, seen, nodes)
}

// "the demands of tags 21 and 22 and those raised are resolved under the bindings": the atoms demanded of each node and of each variable come in the
// table. True if a demand ends at an atom fresh for itself. The facts are then the atoms left at the unbound variables. It goes on to the end all the
// same, so what is looked at does not depend on where a clash is. `variables` is a usize though it is cast to a variable's number: a u8 would ask more of who
// calls.
pub fn resolve(
    input: &Input,
    bound: VariableSet,
    bindings: &Shown,
    asked: &mut Asked,
    marks: &mut Marks,
    nodes: usize,
    atoms: usize,
    variables: usize,
) -> bool
    requires held { Standing input.now.bytes.now input.now.places.now
        × Bound (problem_of input.now.bytes.now) bound.0 bindings.now.made.now bindings.now.values.now }
    requires sizes { (nodes ≡ length (problem_of input.now.bytes.now).nodes) × (atoms ≡ (problem_of input.now.bytes.now).atoms)
        × (variables ≡ (problem_of input.now.bytes.now).variables) }
    requires small { (w : Pair) → Demanded (problem_of input.now.bytes.now) asked.old w → atom_of w < (problem_of input.now.bytes.now).atoms }
    ensures resolved { PairsResolved (problem_of input.now.bytes.now).nodes
        (value_at (problem_of input.now.bytes.now).atoms bound.0 bindings.now.made.now bindings.now.values.now)
        (Demanded (problem_of input.now.bytes.now) asked.old)
        (SoFar (problem_of input.now.bytes.now) asked.new marks.new) (result ≡ true) }
    ensures kept { asked_of_nodes asked.new ≡ asked_of_nodes asked.old }
{
    demands::clear(marks, nodes, variables);
    begin(input, asked, &mut marks[SEEN], nodes);
    close(input, bound, bindings, asked, marks, atoms, variables);
    clashing(input, &marks[SEEN], nodes)
}
