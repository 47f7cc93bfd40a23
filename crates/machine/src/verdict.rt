// The run: the problem's equations wait, and steps are taken until none is left, the limit is reached or a step refuses.
ghost use Rattle.bindings.specs.Bindings.{bindings_of};
ghost use Rattle.perform.specs.Performed.{tables_in, SameTables};
ghost use Rattle.problem.specs.Held.{problem_of};
ghost use Rattle.quick.specs.Going.{end_of};
ghost use Rattle.machine.specs.Run.{Founded, Began, Ready, RunEnded};

use crate::step::step;
use numbers::{Reason, Refusal, refuse};
use perform::{State, Work};
use problem::{Counts, Input};
use sets::VariableSet;
use variables::NodeVariables;

// An accepted run: the steps taken, which variables are bound, and how many.
#[derive(Clone, Copy, PartialEq, Eq)]
pub struct Ran {
    pub steps: u32,
    pub bound: VariableSet,
    pub count: usize,
}

// "Take the top, if fewer than L steps have been taken", from the start on, where nothing is demanded yet. Most steps need no side to be put together, and
// are taken where the equation lies (`quick`).
fn go(
    input: &Input,
    node_variables: &NodeVariables,
    work: &mut Work,
    atoms: usize,
    protected: VariableSet,
    start: State,
    limit: u32,
) -> Result<Ran, Refusal>
    requires { Began input.now.bytes.now input.now.places.now node_variables.now atoms (tables_in work.old).stack
        (tables_in work.old).bindings (tables_in work.old).sheet start }
    ensures same { SameTables work.old work.new }
    ensures ended { RunEnded input.now.bytes.now atoms limit (tables_in work.new) result
        (end_of input.now.bytes.now protected.0 limit (bindings_of atoms (tables_in work.old).bindings start.count)) }
{
    let mut state = start;
    let mut steps: u32 = 0;
    loop {
        let bindings = work.bindings.shown();
        let went = quick::go(
            input,
            &mut work.stack,
            &bindings,
            &mut work.demands,
            atoms,
            state,
            steps,
            limit,
        );
        state.waiting = went.waiting;
        steps = went.steps;
        if state.waiting == 0 {
            break Ok(Ran {
                steps,
                bound: state.bound,
                count: state.count,
            });
        }
        state.waiting -= 1;
        let e = work.stack.top(state.waiting);
        let place = usize::from(e.number);
        if limit <= steps {
            break Err(refuse(Reason::Limit, place));
        }
        // By a match: with map_err and ? it was tried, and at the exit of ? what the closure promises is out of the answers' reach.
        state = match step(input, node_variables, work, atoms, protected, state, e) {
            Ok(next) => next,
            Err(reason) => break Err(refuse(reason, place)),
        };
        steps += 1;
    }
}

// The run of the problem that the input is, from the bindings that the tables have, whoever made them and in whatever order, with the variables of a set
// protected and at most the problem's limit of steps: an accepted one, or why it is refused: at the limit, for a clash, a variable inside its own value or a
// protected one, each with the number of the equation. The other tables may hold anything.
pub fn run(
    input: &Input,
    c: Counts,
    node_variables: &NodeVariables,
    work: &mut Work,
    protected: VariableSet,
    bound: VariableSet,
    count: usize,
) -> Result<Ran, Refusal>
    requires ready { Ready input.now.bytes.now input.now.places.now node_variables.now c }
    requires founded { Founded (problem_of input.now.bytes.now) (tables_in work.old).bindings count bound.0 }
    ensures same { SameTables work.old work.new }
    ensures ended { RunEnded input.now.bytes.now c.atoms c.limit (tables_in work.new) result
        (end_of input.now.bytes.now protected.0 c.limit (bindings_of c.atoms (tables_in work.old).bindings count)) }
{
    let equations = usize::from(c.equations);
    let asked = &mut *work.demands.asked;
    demands::clear(asked, usize::from(c.nodes), usize::from(c.variables));
    work.stack.start(input, equations);
    let start = State {
        waiting: equations,
        bound,
        count,
    };
    go(
        input,
        node_variables,
        work,
        usize::from(c.atoms),
        protected,
        start,
        c.limit,
    )
}
