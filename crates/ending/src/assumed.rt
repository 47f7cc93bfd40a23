// The judge's last question: whether all that is asked of variables is assumed.
ghost use Rattle.std.specs.Prelude.{◌≡◌, ◌≤◌, ◌<◌};
ghost use Rattle.demands.specs.Demands.{asked_of_variables};
ghost use Rattle.ending.specs.Covered.{covered_at, covered};

use demands::Asked;
use names::Variable;
use problem::{Assumed, look};
use sets::VariableSet;

// Whether every fact at one variable is assumed.
#[tactic(auto, unfolding(crate::specs::Covered::covered_at))]
fn covers(bound: VariableSet, asked: &Asked, assumed: &Assumed, x: Variable) -> bool
    requires { x.0 < 64 }
    ensures { result ≡ covered_at bound.0 (asked_of_variables asked.now) assumed.now x.0 }
{
    let facts = demands::of_variable(asked, x);
    let given = look::assumed_for(assumed, x);
    bound.has(x) || facts.minus(given).is_empty()
}

// Whether every fact is assumed: an atom that is asked of an unbound variable.
// The cast: `variables` is at most 64, and a `try_from` would bring a branch that is never taken; to take a u8 would ask more of who calls.
pub fn all_assumed(bound: VariableSet, asked: &Asked, assumed: &Assumed, variables: usize) -> bool
    requires { variables ≤ 64 }
    ensures { result ≡ covered variables bound.0 (asked_of_variables asked.now) assumed.now }
{
    for x in 0..variables {
        if !covers(bound, asked, assumed, Variable(x as u8)) {
            return false;
        }
    }
    true
}
