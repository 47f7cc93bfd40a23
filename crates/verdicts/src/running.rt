// The run of a problem that was read. The solver and the judge have it in common.
ghost use Rattle.std.specs.Prelude.{◌≡◌};
ghost use Rattle.problem.specs.Held.{problem_of};
ghost use Rattle.problem.specs.Look.{Standing};
ghost use Rattle.problem.specs.Told.{counts_of};
ghost use Rattle.variables.specs.Variables.{VariablesKept};
ghost use Rattle.sets.specs.Bits.{member};
ghost use Rattle.bindings.specs.Bindings.{binding_tables, bindings_of};
ghost use Rattle.machine.specs.Run.{Founded};
ghost use Rattle.perform.specs.Performed.{SameTables};
ghost use Rattle.verdicts.specs.Ends.{run_from, RunEnds};

use ending::words::words;
use machine::verdict::Ran;
use numbers::Refusal;
use perform::Work;
use problem::{Counts, Input};
use sets::VariableSet;
use variables::NodeVariables;

// From the bindings that the tables have, whoever made them, with the variables of a set protected. The other tables may hold anything.
pub fn run_read(
    input: &Input,
    c: Counts,
    node_variables: &NodeVariables,
    work: &mut Work,
    protected: VariableSet,
    bound: VariableSet,
    count: usize,
) -> Result<Ran, Refusal>
    requires standing { Standing input.now.bytes.now input.now.places.now × (c ≡ counts_of (problem_of input.now.bytes.now))
        × VariablesKept (problem_of input.now.bytes.now).nodes node_variables.now }
    requires founded { Founded (problem_of input.now.bytes.now)
        (binding_tables work.old.bindings.made.now work.old.bindings.values.now) count bound.0 }
    ensures same { SameTables work.old work.new }
    ensures ended { RunEnds (problem_of input.now.bytes.now) (binding_tables work.new.bindings.made.now work.new.bindings.values.now)
        work.new.demands.asked.now result (run_from (problem_of input.now.bytes.now) (member protected.0)
        (bindings_of (problem_of input.now.bytes.now).atoms
        (binding_tables work.old.bindings.made.now work.old.bindings.values.now) count)) }
{
    let ran = machine::verdict::run(input, c, node_variables, work, protected, bound, count);
    let asked = &mut *work.demands.asked;
    words(asked);
    ran
}
