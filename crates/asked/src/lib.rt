// The demands of the file, added to those that the run raised when no equation is left: then the table of sets has all that is to be resolved.
#![tactic(auto)]

ghost use Rattle.std.specs.Prelude.{◌≡◌, ◌≤◌, length};
ghost use Rattle.problem.specs.Held.{problem_of};
ghost use Rattle.problem.specs.Look.{Standing};
ghost use Rattle.asked.specs.Added.{FreshnessAdded, AssumptionsAdded};

use demands::Asked;
use names::Variable;
use problem::{Assumed, Input, look};

// "the demands of tags 21": an atom fresh for a node itself.
pub fn add_freshness(input: &Input, asked: &mut Asked, count: usize)
    requires { Standing input.now.bytes.now input.now.places.now × (count ≡ length (problem_of input.now.bytes.now).freshness) }
    ensures { FreshnessAdded (problem_of input.now.bytes.now).freshness asked.old asked.new }
{
    for k in 0..count {
        let d = input.freshness_at(k);
        demands::ask_of_node(asked, d.node, d.atom);
    }
}

// ".. and 22": an atom fresh for a variable. The sets by variable are the reader's.
// The cast: `variables` is at most 64, and a `try_from` would bring a branch that is never taken; to take a u8 would ask more of who calls.
pub fn add_assumptions(assumed: &Assumed, asked: &mut Asked, variables: usize)
    requires { variables ≤ 64 }
    ensures { AssumptionsAdded variables assumed.now asked.old asked.new }
{
    for i in 0..variables {
        let x = Variable(i as u8);
        demands::ask_of_variable(asked, x, look::assumed_for(assumed, x));
    }
}
