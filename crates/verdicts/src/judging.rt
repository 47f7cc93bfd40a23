// The judge after its reader: the run with every variable protected, and what comes after its end.
ghost use Rattle.std.specs.Prelude.{◌≡◌};
ghost use Rattle.problem.specs.Held.{problem_of};
ghost use Rattle.problem.specs.Told.{ReadInto};
ghost use Rattle.variables.specs.Variables.{VariablesKept};
ghost use Rattle.run.specs.Answer.{judged_run};
ghost use Rattle.run.specs.Answer as run;
ghost use Rattle.numbers.specs.Numbers.{judgement_given};
ghost use Rattle.perform.specs.Performed.{SameTables};

use crate::running::run_read;
use fresh::Marks;
use numbers::{Judged, Reason, refuse};
use perform::Work;
use problem::{Assumed, Counts, Input};
use sets::VariableSet;
use variables::NodeVariables;

// What the judge gives back for a problem that was read. A run that reached its limit stays that; every other refusal of the run is the judge's one.
pub fn judge_read(
    input: &Input,
    c: Counts,
    assumed: &Assumed,
    node_variables: &NodeVariables,
    work: &mut Work,
    marks: &mut Marks,
) -> Judged
    requires { ReadInto input.now.bytes.now input.now.places.now assumed.now c
        × VariablesKept (problem_of input.now.bytes.now).nodes node_variables.now }
    ensures same { SameTables work.old work.new }
    ensures judged { judgement_given result
        ≡ run.judgement_of (problem_of input.now.bytes.now) (judged_run (problem_of input.now.bytes.now)) }
{
    let protected = VariableSet::below(64);
    let none = VariableSet::empty();
    match run_read(input, c, node_variables, work, protected, none, 0) {
        Ok(ran) => {
            let asked = &mut *work.demands.asked;
            let bindings = work.bindings.shown();
            ending::judged(input, c, assumed, &bindings, asked, marks, ran.bound)
        }
        Err(refusal) if refusal.reason == Reason::Limit => Err(refusal),
        Err(_) => Err(refuse(Reason::DoesNotHold, 0)),
    }
}
