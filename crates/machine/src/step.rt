// One step of the run: both sides are resolved, the rule that fits is told, and it is done.
ghost use Rattle.std.specs.Prelude.{◌≡◌, ◌<◌, length};
ghost use Rattle.problem.specs.Held.{problem_of};
ghost use Rattle.problem.specs.Look.{Standing};
ghost use Rattle.bindings.specs.Bindings.{binding_tables, NodesThere};
ghost use Rattle.side.specs.Side.{side_at, SideResolved};
ghost use Rattle.perform.specs.Performed.{tables_in, SameTables, Performed};
ghost use Rattle.machine.specs.Step.{Present, step_here};

use bindings::Shown;
use names::NodeId;
use numbers::Reason;
use occurs::Known;
use perform::{State, Work};
use permutation::Permutation;
use problem::Input;
use sets::VariableSet;
use side::Side;
use stack::Pending;
use variables::NodeVariables;

// A side of an equation, resolved. Most sides are no suspension of a bound variable: that is asked here, before the loop that resolves one is entered.
// It stands where it is wanted and is not called: called, 64 variables that are bound one after the other take 3% more instructions.
#[inline(always)]
fn resolved(
    input: &Input,
    bindings: &Shown,
    atoms: usize,
    state: State,
    images: Permutation,
    node: NodeId,
) -> Side
    requires { Standing input.now.bytes.now input.now.places.now
        × (atoms ≡ (problem_of input.now.bytes.now).atoms)
        × (node.0 < length (problem_of input.now.bytes.now).nodes)
        × NodesThere (length (problem_of input.now.bytes.now).nodes) bindings.now.made.now state.bound.0 }
    ensures { SideResolved input.now.bytes.now atoms (binding_tables bindings.now.made.now bindings.now.values.now) state.bound.0 state.count
        (side_at atoms images node) result }
{
    let form = input.form_of(node);
    if side::is_bound(form, state.bound) {
        return side::resolve(
            input,
            bindings,
            atoms,
            state.bound,
            state.count,
            images,
            node,
        );
    }
    Side { images, node, form }
}

// The step of the equation e, which was above those that wait.
pub fn step(
    input: &Input,
    node_variables: &NodeVariables,
    work: &mut Work,
    atoms: usize,
    protected: VariableSet,
    state: State,
    e: Pending,
) -> Result<State, Reason>
    requires { Present input.now.bytes.now input.now.places.now node_variables.now atoms protected.0
        (tables_in work.old).stack (tables_in work.old).bindings state e }
    ensures same { SameTables work.old work.new }
    ensures performed { Performed input.now.bytes.now atoms e.number (tables_in work.old) state (tables_in work.new) result
        (step_here input.now.bytes.now atoms protected.0 (tables_in work.old).bindings state e) }
{
    let bindings = work.bindings.shown();
    let left = resolved(input, &bindings, atoms, state, e.left, e.left_node);
    let right = resolved(input, &bindings, atoms, state, e.right, e.right_node);
    let known = Known {
        node_variables,
        made: bindings.made,
        bound: state.bound,
    };
    let act = rule::decide(&known, atoms, protected, left, right);
    perform::perform(input, work, atoms, e.number, state, act, left, right)
}
