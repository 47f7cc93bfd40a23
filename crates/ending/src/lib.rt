// What comes after the last equation: all demands are resolved under the bindings, and the answer is written or the judgement given.
#![tactic(auto)]

pub mod assumed; // assumed.rt: what the judge asks in the end
pub mod words; // words.rt: that the sets are words

ghost use Rattle.std.specs.Prelude.{◌≡◌};
ghost use Rattle.problem.specs.Held.{problem_of};
ghost use Rattle.problem.specs.Look.{Standing};
ghost use Rattle.problem.specs.Told.{counts_of};
ghost use Rattle.problem.specs.Told.{ReadInto};
ghost use Rattle.bindings.specs.Bindings.{binding_tables};
ghost use Rattle.demands.specs.Demands.{asked_of_variables};
ghost use Rattle.fresh.specs.Marks.{Bound};
ghost use Rattle.ending.specs.Ended.{Small, Resolves, Ended, SomeEnded, Concludes, Judges};

use crate::assumed::all_assumed;
use crate::words::words;
use bindings::Shown;
use demands::Asked;
use fresh::Marks;
use numbers::{Judged, Reason, Solved, refuse};
use problem::{Assumed, Counts, Input};
use sets::VariableSet;

// The demands in the tables and those of the file's freshness fields. Answers whether they fail; the atoms asked of each variable are left in the table.
// bindings and asked come one by one and not as a Work with both: that is perform's, and no part of what this crate may know.
fn resolve(
    input: &Input,
    c: Counts,
    bindings: &Shown,
    asked: &mut Asked,
    marks: &mut Marks,
    bound: VariableSet,
) -> bool
    requires read { Standing input.now.bytes.now input.now.places.now × (c ≡ counts_of (problem_of input.now.bytes.now)) }
    requires bound { Bound (problem_of input.now.bytes.now) bound.0 bindings.now.made.now bindings.now.values.now }
    requires small { Small (problem_of input.now.bytes.now) asked.old }
    ensures { Resolves (problem_of input.now.bytes.now) (binding_tables bindings.now.made.now bindings.now.values.now) bound.0
        asked.old (asked_of_variables asked.new) result }
{
    asked::add_freshness(input, asked, usize::from(c.freshness));
    fresh::resolve(
        input,
        bound,
        bindings,
        asked,
        marks,
        usize::from(c.nodes),
        usize::from(c.atoms),
        usize::from(c.variables),
    )
}

// The solver's answer, for a run that is finished after so many steps. What is known of the run comes as three numbers: a struct of them would be a twin of
// the machine's, which is no part of what this crate may know.
pub fn conclude(
    input: &Input,
    c: Counts,
    output: &mut [u8],
    assumed: &Assumed,
    bindings: &Shown,
    asked: &mut Asked,
    marks: &mut Marks,
    bound: VariableSet,
    count: usize,
    steps: u32,
) -> Solved
    requires read { ReadInto input.now.bytes.now input.now.places.now assumed.now c }
    requires ended { Ended (problem_of input.now.bytes.now) (binding_tables bindings.now.made.now bindings.now.values.now) count bound.0 asked.old steps }
    ensures { Concludes (problem_of input.now.bytes.now) (binding_tables bindings.now.made.now bindings.now.values.now) count bound.0
        asked.old steps result output.old output.new }
{
    let variables = usize::from(c.variables);
    asked::add_assumptions(assumed, asked, variables);
    if resolve(input, c, bindings, asked, marks, bound) {
        return Err(refuse(Reason::NotFresh, 0));
    }
    answer::write(
        output,
        bindings,
        asked,
        steps,
        count,
        bound,
        usize::from(c.atoms),
        variables,
    )
}

// The judgement, for a run that is finished: "without the assumption demands".
pub fn judged(
    input: &Input,
    c: Counts,
    assumed: &Assumed,
    bindings: &Shown,
    asked: &mut Asked,
    marks: &mut Marks,
    bound: VariableSet,
) -> Judged
    requires read { ReadInto input.now.bytes.now input.now.places.now assumed.now c }
    requires ended { SomeEnded (problem_of input.now.bytes.now) (binding_tables bindings.now.made.now bindings.now.values.now) bound.0 asked.old }
    ensures { Judges (problem_of input.now.bytes.now) (binding_tables bindings.now.made.now bindings.now.values.now) bound.0 asked.old result }
{
    if resolve(input, c, bindings, asked, marks, bound) {
        return Err(refuse(Reason::DoesNotHold, 0));
    }
    words(asked);
    if all_assumed(bound, asked, assumed, usize::from(c.variables)) {
        return Ok(());
    }
    Err(refuse(Reason::DoesNotHold, 0))
}
