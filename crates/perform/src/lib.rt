// Doing what the rule tells: equations are pushed, a binding is added, demands are raised, in the tables that a run works in.
#![tactic(auto)]

ghost use Rattle.std.specs.Prelude.{◌≡◌, false, ◌≤◌, ◌<◌, ◌+◌};
ghost use Rattle.permutation.specs.Store.{table};
ghost use Rattle.permutation.specs.Table.{after, inverted};
ghost use Rattle.sets.specs.Bits.{member};
ghost use Rattle.problem.specs.Held.{problem_of};
ghost use Rattle.problem.specs.Look.{Standing};
ghost use Rattle.run.specs.Run.{under};
ghost use Rattle.bindings.specs.Bindings.{binding_tables, Keeps};
ghost use Rattle.demands.specs.Demands.{sheet};
ghost use Rattle.side.specs.Side.{side_held};
ghost use Rattle.perform.specs.Performed.{tables_in, gone_to, whole_held, step_told, SameTables, DisagreementRaised, BoundTo, Hangs, Fit, Performed};

use bindings::{Bindings, Value};
use demands::Demands;
use names::{NodeId, Variable};
use numbers::Reason;
use permutation::Permutation;
use problem::Input;
use rule::Act;
use sets::VariableSet;
use side::Side;
use stack::{Pending, Stack};

// What a run works in: the equations that wait, the bindings and the demands, each in tables that the caller lends.
#[derive(Drop)]
pub struct Work<'a> {
    pub stack: Stack<'a>,
    pub bindings: Bindings<'a>,
    pub demands: Demands<'a>,
}

// How far the run is: how many equations wait, which variables are bound, and how many. By value from step to step, and no part of Work: a step that
// refuses gives none back.
#[derive(Clone, Copy, PartialEq, Eq)]
pub struct State {
    pub waiting: usize,
    pub bound: VariableSet,
    pub count: usize,
}

impl State {
    // So many equations wait then, and the same variables are bound.
    fn with(self, waiting: usize) -> State
        ensures { result ≡ gone_to waiting self.bound self.count }
    {
        State { waiting, ..self }
    }
}

// One part of each side, under the side's images.
fn part(number: u8, left: Side, m: NodeId, right: Side, k: NodeId) -> Pending
    ensures { result ≡ record { number = number; left = left.images; left_node = m; right = right.images; right_node = k } }
{
    Pending {
        number,
        left: left.images,
        left_node: m,
        right: right.images,
        right_node: k,
    }
}

// "Suspensions of one variable X: each atom of the disagreement set is demanded fresh for X".
fn same_variable(
    input: &Input,
    demands: &mut Demands,
    atoms: usize,
    number: u8,
    x: Variable,
    left: &Side,
    right: &Side,
)
    requires { Standing input.now.bytes.now input.now.places.now × (atoms ≡ (problem_of input.now.bytes.now).atoms)
        × Hangs input.now.bytes.now left.now.node.0 × Hangs input.now.bytes.now right.now.node.0 × (x.0 < 64) }
    ensures same { (demands.new.asked.ghost_name ≡ demands.old.asked.ghost_name) × (demands.new.firsts.ghost_name ≡ demands.old.firsts.ghost_name) }
    ensures raised { DisagreementRaised (whole_held input.now.bytes.now atoms left.now) (whole_held input.now.bytes.now atoms right.now) x.0 number
        (sheet demands.old.asked.now demands.old.firsts.now) (sheet demands.new.asked.now demands.new.firsts.now) }
{
    let p = side::whole(input, atoms, left.images, left.node);
    let q = side::whole(input, atoms, right.images, right.node);
    let d = permutation::disagreement(p, q, atoms);
    demands.raise_variable(d, x, number);
}

// Images under the inverse of another permutation. Most often that is the identity: then they are as they were, and nothing is inverted or composed.
fn under_inverse(outer: Permutation, q: Permutation, atoms: usize) -> Permutation
    requires { atoms ≤ 32 }
    ensures { table atoms result ≡ after (inverted (table atoms outer)) (table atoms q) }
{
    if permutation::is_identity(outer) {
        return q;
    }
    let back = permutation::invert(outer, atoms);
    permutation::compose(back, q, atoms)
}

// "X becomes the inverse of P applied to the right side. The binding holds the right side's node and the images acting on it from outside; that node's
// own swaps aren't folded in." The other side stands here for the right one.
fn bind(
    input: &Input,
    bindings: &mut Bindings,
    atoms: usize,
    number: u8,
    state: State,
    x: Variable,
    side: &Side,
    other: &Side,
) -> State
    requires { Standing input.now.bytes.now input.now.places.now × (atoms ≡ (problem_of input.now.bytes.now).atoms) × Hangs input.now.bytes.now side.now.node.0
        × Keeps bindings.old.made.now state.count state.bound.0 × (member state.bound.0 x.0 ≡ false) × (x.0 < 64) }
    ensures same { (bindings.new.made.ghost_name ≡ bindings.old.made.ghost_name) × (bindings.new.values.ghost_name ≡ bindings.old.values.ghost_name) }
    ensures bound { BoundTo atoms number x.0
        (under (inverted (whole_held input.now.bytes.now atoms side.now)) (side_held atoms other.now))
        (binding_tables bindings.old.made.now bindings.old.values.now) state
        (binding_tables bindings.new.made.now bindings.new.values.now) result }
{
    let outer = side::whole(input, atoms, side.images, side.node);
    let images = under_inverse(outer, other.images, atoms);
    let value = Value {
        images,
        node: other.node,
    };
    let bound = bindings.add(state.count, state.bound, x, value, number);
    State {
        waiting: state.waiting,
        bound,
        count: state.count + 1,
    }
}

// What the rule tells of two resolved sides, done for equation `number`: how far the run is then, or why it refuses. Of two abstractions of different atoms
// a and b it goes on with "s against t under the swap of a and b, and a is demanded fresh for t".
pub fn perform(
    input: &Input,
    work: &mut Work,
    atoms: usize,
    number: u8,
    state: State,
    act: Act,
    left: Side,
    right: Side,
) -> Result<State, Reason>
    requires { Fit input.now.bytes.now input.now.places.now atoms state work.old.bindings.made.now left right act }
    ensures same { SameTables work.old work.new }
    ensures performed { Performed input.now.bytes.now atoms number (tables_in work.old) state (tables_in work.new) result
        (step_told input.now.bytes.now atoms left right act) }
{
    let n = state.waiting;
    // By the act that was told, and not by what decides it: a step is told before it is done (docs/DECISIONS.md, 31).
    match act {
        Act::Done => Ok(state),
        Act::Clash => Err(Reason::Clash),
        Act::Inside => Err(Reason::Inside),
        Act::Protection => Err(Reason::Protected),
        Act::Part(m, k) => {
            work.stack.push(n, part(number, left, m, right, k));
            Ok(state.with(n + 1))
        }
        // "Pairs: the left parts on top, then the right parts."
        Act::Parts(l, m, k, o) => {
            work.stack.push(n, part(number, left, m, right, o));
            work.stack.push(n + 1, part(number, left, l, right, k));
            Ok(state.with(n + 2))
        }
        Act::Renamed(a, m, b, k) => {
            let images = permutation::swap_after(a, b, right.images, atoms);
            let swapped = Side { images, ..right };
            work.stack.push(n, part(number, left, m, swapped, k));
            work.demands.raise_side(a, right.images, atoms, k, number);
            Ok(state.with(n + 1))
        }
        Act::Same(x) => {
            same_variable(input, &mut work.demands, atoms, number, x, &left, &right);
            Ok(state)
        }
        Act::BindLeft(x) => {
            let bindings = &mut work.bindings;
            Ok(bind(input, bindings, atoms, number, state, x, &left, &right))
        }
        Act::BindRight(x) => {
            let bindings = &mut work.bindings;
            Ok(bind(input, bindings, atoms, number, state, x, &right, &left))
        }
    }
}
