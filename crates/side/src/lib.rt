// Sides of equations: a permutation and a node, with the node's form beside it, and what a side is once bound variables are replaced by their values.
#![tactic(auto)]

ghost use Rattle.std.specs.Prelude.{◌≡◌, ◌<◌, length};
ghost use Rattle.permutation.specs.Store.{table};
ghost use Rattle.problem.specs.Held.{problem_of};
ghost use Rattle.problem.specs.Look.{NodeStands, form_now, form_told, Suspended, Standing};
ghost use Rattle.bindings.specs.Bindings.{binding_tables, NodesThere};
ghost use Rattle.side.specs.Side.{is_bound, Valued, SideResolved, side_at, whole_of};

use bindings::{Shown, Value};
use names::NodeId;
use permutation::Permutation;
use problem::{Form, Input};
use sets::VariableSet;

// "Each side is a permutation and a node."
#[derive(Clone, Copy, PartialEq, Eq)]
pub struct Side {
    pub images: Permutation,
    pub node: NodeId,
    pub form: Form,
}

impl Side {
    // A node under images, with the form that it has.
    pub fn of(input: &Input, images: Permutation, node: NodeId) -> Side
        requires { NodeStands input.now.bytes.now input.now.places.now node.0 }
        ensures { result ≡ record { images = images; node = node; form = form_told (form_now input.now.bytes.now node.0) } }
    {
        let form = input.form_of(node);
        Side { images, node, form }
    }
}

// A suspension under a side's images: first its own swaps, then the images. Most have no swaps, and nothing is composed.
pub fn whole(input: &Input, atoms: usize, images: Permutation, node: NodeId) -> Permutation
    requires { Standing input.now.bytes.now input.now.places.now
        × (atoms ≡ (problem_of input.now.bytes.now).atoms)
        × (node.0 < length (problem_of input.now.bytes.now).nodes)
        × Suspended (form_now input.now.bytes.now node.0) }
    ensures { table atoms result ≡ whole_of input.now.bytes.now atoms (table atoms images) node.0 }
{
    let swaps = input.swaps_of(node);
    if swaps.is_empty() {
        return images;
    }
    let own = permutation::of_swaps(swaps, atoms);
    permutation::compose(images, own, atoms)
}

// What a form is replaced by: the value of a bound variable.
fn value_of(bindings: &Shown, bound: VariableSet, form: Form) -> Option<Value>
    ensures { Valued (binding_tables bindings.now.made.now bindings.now.values.now) bound.0 form result }
{
    match form {
        Form::Suspension(x) => bindings.look_up(bound, x),
        _ => None,
    }
}

// Whether a form is a suspension of a bound variable.
pub fn is_bound(form: Form, bound: VariableSet) -> bool
    ensures { result ≡ is_bound bound.0 form }
{
    match form {
        Form::Suspension(x) => bound.has(x),
        _ => false,
    }
}

// "A side that is a suspension of a bound variable is first replaced by its value under the permutations, as often as needed": at most once for each
// binding.
pub fn resolve(
    input: &Input,
    bindings: &Shown,
    atoms: usize,
    bound: VariableSet,
    count: usize,
    images: Permutation,
    node: NodeId,
) -> Side
    requires { Standing input.now.bytes.now input.now.places.now
        × (atoms ≡ (problem_of input.now.bytes.now).atoms)
        × (node.0 < length (problem_of input.now.bytes.now).nodes)
        × NodesThere (length (problem_of input.now.bytes.now).nodes) bindings.now.made.now bound.0 }
    ensures { SideResolved input.now.bytes.now atoms (binding_tables bindings.now.made.now bindings.now.values.now) bound.0 count
        (side_at atoms images node) result }
{
    let mut side = Side::of(input, images, node);
    for _done in 0..count {
        let Some(value) = value_of(bindings, bound, side.form) else {
            return side;
        };
        let outer = whole(input, atoms, side.images, side.node);
        let inner = permutation::compose(outer, value.images, atoms);
        side = Side::of(input, inner, value.node);
    }
    side
}
