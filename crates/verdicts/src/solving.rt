// The solver after its reader: the run, and what comes after its end.
ghost use Rattle.std.specs.Prelude.{◌≡◌};
ghost use Rattle.problem.specs.Held.{problem_of};
ghost use Rattle.problem.specs.Told.{ReadInto};
ghost use Rattle.variables.specs.Variables.{VariablesKept};
ghost use Rattle.run.specs.Run.{run_of};
ghost use Rattle.run.specs.Answer.{verdict_of, given};
ghost use Rattle.numbers.specs.Numbers.{result_of};
ghost use Rattle.perform.specs.Performed.{SameTables};

use crate::running::run_read;
use fresh::Marks;
use numbers::Solved;
use perform::Work;
use problem::{Assumed, Counts, Input};
use sets::VariableSet;
use variables::NodeVariables;

// What the solver gives back for a problem that was read.
pub fn solve_read(
    input: &Input,
    c: Counts,
    output: &mut [u8],
    assumed: &Assumed,
    node_variables: &NodeVariables,
    work: &mut Work,
    marks: &mut Marks,
) -> Solved
    requires { ReadInto input.now.bytes.now input.now.places.now assumed.now c
        × VariablesKept (problem_of input.now.bytes.now).nodes node_variables.now }
    ensures same { SameTables work.old work.new }
    ensures solved { result_of result output.new
        ≡ given (verdict_of (problem_of input.now.bytes.now) (run_of (problem_of input.now.bytes.now))) output.old }
{
    let none = VariableSet::empty();
    let ran = run_read(input, c, node_variables, work, c.protected, none, 0)?;
    let asked = &mut *work.demands.asked;
    let bindings = work.bindings.shown();
    ending::conclude(
        input, c, output, assumed, &bindings, asked, marks, ran.bound, ran.count, ran.steps,
    )
}
