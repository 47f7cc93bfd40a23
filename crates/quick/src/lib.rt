// Steps taken where the equation lies: of two sides with the same form, whose nodes alone are looked at. The images stay in their rows, no side is put
// together, and what is left to do is the next equation at once. Every step is the definition's own. Where one of another kind is wanted (a variable is to be
// bound, a value has images of its own, a step refuses), the equation waits again as it was.
#![tactic(auto)]

ghost use Rattle.std.specs.Prelude.{◌≡◌, ◌≢◌, cond, ◌+◌, ◌≤◌, ◌<◌, length, eqb};
ghost use Rattle.permutation.specs.Table.{image};
ghost use Rattle.problem.specs.Held.{problem_of};
ghost use Rattle.problem.specs.Look.{Standing};
ghost use Rattle.run.specs.Run.{abstractions};
ghost use Rattle.run.specs.Circle.{Permuting};
ghost use Rattle.stack.specs.Stack.{most_waiting};
ghost use Rattle.stack.specs.InPlace.{left_at, right_at, Renewed};
ghost use Rattle.bindings.specs.Bindings.{binding_tables};
ghost use Rattle.quick.specs.Going.{tables_lent, SomeGoing, CarriedOn};
ghost use Rattle.quick.specs.Met.{side_under, LeadsTo, Facing, met_in, SameInPlace, Taken, Meets};
ghost use Rattle.quick.specs.declared.Meeting.TheVariants.{Leave, Done, Part};

use bindings::Shown;
use demands::Demands;
use names::{Atom, NodeId};
use perform::State;
use problem::{Form, Input};
use sets::VariableSet;
use stack::Stack;

// How many equations wait then, and how many steps were taken.
#[derive(Clone, Copy, PartialEq, Eq)]
pub struct Went {
    pub waiting: usize,
    pub steps: u32,
}

// What becomes of two nodes that meet: the equation is left as it is, it is done, or it goes on with one part of each, or with two.
// Leave stays beside the others: down takes all four apart in one match, an Option around three would be two; and no Act: seven of its ten do not come here.
#[derive(Clone, Copy, PartialEq, Eq)]
enum Meeting {
    Leave,
    Done,
    Part(NodeId, NodeId),
    Parts(NodeId, NodeId, NodeId, NodeId),
}

// Where a node leads: a suspension without swaps, of a variable that is bound to a node as it is, leads to that node.
fn through(input: &Input, bindings: &Shown, bound: VariableSet, node: NodeId) -> NodeId
    requires { Standing input.now.bytes.now input.now.places.now × (node.0 < length (problem_of input.now.bytes.now).nodes) }
    ensures { LeadsTo input.now.bytes.now (binding_tables bindings.now.made.now bindings.now.values.now) bound.0 node result }
{
    match input.bare(node) {
        Some(x) if bound.has(x) && bindings::is_plain(bindings.values, x) => {
            bindings::node_of(bindings.made, x)
        }
        _ => node,
    }
}

// Here and below n, number and atoms go beside each other: each meeting takes those that it needs, and n moves on where number and atoms stay.
// "the same atom: done".
fn atoms_meet(stack: &Stack, n: usize, atoms: usize, a: Atom, b: Atom) -> Meeting
    requires { (n < most_waiting) × (atoms ≤ 32) }
    ensures { result ≡ cond (eqb (image (left_at atoms stack.now.images.now n) a.0) (image (right_at atoms stack.now.images.now n) b.0)) Done Leave }
{
    if stack.left_image(n, atoms, a) == stack.right_image(n, atoms, b) {
        return Meeting::Done;
    }
    Meeting::Leave
}

// "with a equal to b, s against t; else s against t under the swap of a and b, and a is demanded fresh for t."
fn abstractions_meet(
    stack: &mut Stack,
    demands: &mut Demands,
    n: usize,
    number: u8,
    atoms: usize,
    a: Atom,
    m: NodeId,
    b: Atom,
    k: NodeId,
) -> Meeting
    requires { (n < most_waiting) × (atoms ≤ 32) × (a.0 < atoms) × (k.0 < 512)
        × Permuting atoms (left_at atoms stack.old.images.now n) × Permuting atoms (right_at atoms stack.old.images.now n) }
    ensures same { SameInPlace stack.old stack.new demands.old demands.new }
    ensures heads { stack.new.heads.now ≡ stack.old.heads.now }
    ensures taken { (result ≡ Part m k) × Taken atoms number n
        (abstractions (image (left_at atoms stack.old.images.now n) a.0) (side_under (left_at atoms stack.old.images.now n) m)
        (image (right_at atoms stack.old.images.now n) b.0) (side_under (right_at atoms stack.old.images.now n) k)) (Part m k)
        (met_in stack.old demands.old) (met_in stack.new demands.new) }
{
    let x = stack.left_image(n, atoms, a);
    let y = stack.right_image(n, atoms, b);
    if x != y {
        let c = stack.right_preimage(n, atoms, x);
        demands.raise_node(c, k, number);
        stack.swap_right(n, x, y);
    }
    Meeting::Part(m, k)
}

// "Applications: the two arguments", of the same symbol.
fn applications_meet(h: u16, m: NodeId, i: u16, k: NodeId) -> Meeting
    ensures { result ≡ cond (eqb h i) (Part m k) Leave }
{
    if h == i {
        return Meeting::Part(m, k);
    }
    Meeting::Leave
}

// "Suspensions of one variable X: each atom of the disagreement set is demanded fresh for X": here of a variable that is not bound, without swaps.
fn suspensions_meet(
    input: &Input,
    stack: &Stack,
    demands: &mut Demands,
    bound: VariableSet,
    n: usize,
    number: u8,
    atoms: usize,
    l: NodeId,
    r: NodeId,
) -> Meeting
    requires { Facing input.now.bytes.now input.now.places.now atoms n stack.now.images.now l r }
    ensures same { (demands.new.asked.ghost_name ≡ demands.old.asked.ghost_name) × (demands.new.firsts.ghost_name ≡ demands.old.firsts.ghost_name) }
    ensures meets { Meets input.now.bytes.now atoms bound.0 number n l r
        (met_in stack.now demands.old) (met_in stack.now demands.new) result }
{
    let (Some(x), Some(y)) = (input.bare(l), input.bare(r)) else {
        return Meeting::Leave;
    };
    if x != y || bound.has(x) {
        return Meeting::Leave;
    }
    let d = stack.disagreement(n, atoms);
    if !d.is_empty() {
        demands.raise_variable(d, x, number);
    }
    Meeting::Done
}

// The nodes l and r of the two sides meet, under the images at place n. Only two of the same form go on here: for any others the definition refuses, or binds
// a variable.
fn meet(
    input: &Input,
    stack: &mut Stack,
    demands: &mut Demands,
    bound: VariableSet,
    n: usize,
    number: u8,
    atoms: usize,
    l: NodeId,
    r: NodeId,
) -> Meeting
    requires { Facing input.now.bytes.now input.now.places.now atoms n stack.old.images.now l r }
    ensures same { SameInPlace stack.old stack.new demands.old demands.new }
    ensures heads { stack.new.heads.now ≡ stack.old.heads.now }
    ensures meets { Meets input.now.bytes.now atoms bound.0 number n l r
        (met_in stack.old demands.old) (met_in stack.new demands.new) result }
{
    match (input.form_of(l), input.form_of(r)) {
        (Form::Unit, Form::Unit) => Meeting::Done,
        (Form::Atom(a), Form::Atom(b)) => atoms_meet(stack, n, atoms, a, b),
        (Form::Abstraction(a, m), Form::Abstraction(b, k)) => abstractions_meet(
            stack, demands, n, number, atoms, a, m, b, k,
        ),
        (Form::Pair(m, o), Form::Pair(k, p)) => Meeting::Parts(m, o, k, p),
        (Form::Application(h, m), Form::Application(i, k)) => applications_meet(h, m, i, k),
        (Form::Suspension(_), Form::Suspension(_)) => suspensions_meet(
            input, stack, demands, bound, n, number, atoms, l, r,
        ),
        _ => Meeting::Leave,
    }
}

// The equation waits again, at its place.
fn wait(stack: &mut Stack, n: usize, number: u8, l: NodeId, r: NodeId, steps: u32) -> Went
    requires { n < most_waiting }
    ensures same { (stack.new.heads.ghost_name ≡ stack.old.heads.ghost_name) × (stack.new.images.ghost_name ≡ stack.old.images.ghost_name) }
    ensures images { stack.new.images.now ≡ stack.old.images.now }
    ensures waits { Renewed n number l r stack.old.heads.now stack.new.heads.now × (result ≡ record { waiting = n + 1; steps = steps }) }
{
    stack.renew(n, number, l, r);
    Went {
        waiting: n + 1,
        steps,
    }
}

// Steps from the equation on top on, down along its first parts, which stay with the loop: until it is done, or is to wait.
fn down(
    input: &Input,
    stack: &mut Stack,
    bindings: &Shown,
    demands: &mut Demands,
    atoms: usize,
    state: State,
    taken: u32,
    limit: u32,
) -> Went
    requires standing { Standing input.now.bytes.now input.now.places.now × (atoms ≡ (problem_of input.now.bytes.now).atoms) × (state.waiting ≢ 0) }
    requires some_going { SomeGoing input.now.bytes.now atoms limit (tables_lent stack.old bindings.now demands.old) taken state }
    ensures same { SameInPlace stack.old stack.new demands.old demands.new }
    ensures carried { CarriedOn input.now.bytes.now atoms limit (tables_lent stack.old bindings.now demands.old) taken state
        (tables_lent stack.new bindings.now demands.new) result }
{
    let mut n = state.waiting - 1;
    let top = stack.nodes_at(n);
    let number = top.number;
    let mut l = top.left;
    let mut r = top.right;
    for steps in taken..limit {
        let i = through(input, bindings, state.bound, l);
        let j = through(input, bindings, state.bound, r);
        match meet(input, stack, demands, state.bound, n, number, atoms, i, j) {
            Meeting::Leave => return wait(stack, n, number, l, r, steps),
            Meeting::Done => {
                return Went {
                    waiting: n,
                    steps: steps + 1,
                };
            }
            Meeting::Part(m, k) => {
                l = m;
                r = k;
            }
            Meeting::Parts(m, o, k, p) => {
                stack.split(n, number, o, p);
                n += 1;
                l = m;
                r = k;
            }
        }
    }
    wait(stack, n, number, l, r, limit)
}

// As many steps as can be taken so, one equation after the other.
pub fn go(
    input: &Input,
    stack: &mut Stack,
    bindings: &Shown,
    demands: &mut Demands,
    atoms: usize,
    start: State,
    taken: u32,
    limit: u32,
) -> Went
    requires standing { Standing input.now.bytes.now input.now.places.now × (atoms ≡ (problem_of input.now.bytes.now).atoms) }
    requires some_going { SomeGoing input.now.bytes.now atoms limit (tables_lent stack.old bindings.now demands.old) taken start }
    ensures same { SameInPlace stack.old stack.new demands.old demands.new }
    ensures carried { CarriedOn input.now.bytes.now atoms limit (tables_lent stack.old bindings.now demands.old) taken start
        (tables_lent stack.new bindings.now demands.new) result }
{
    let mut went = Went {
        waiting: start.waiting,
        steps: taken,
    };
    while went.waiting != 0 {
        let before = went.steps;
        let state = State {
            waiting: went.waiting,
            ..start
        };
        went = down(input, stack, bindings, demands, atoms, state, before, limit);
        if went.steps == before {
            return went;
        }
    }
    went
}
