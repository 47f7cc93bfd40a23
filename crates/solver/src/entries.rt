// The entries of the solver and of the judge. The inner ones take the work tables, with any content; the plain ones make them.
ghost use Rattle.std.specs.Prelude.{◌≡◌};
ghost use Rattle.run.specs.Answer as run;
ghost use Rattle.numbers.specs.Numbers.{result_of, judgement_given};
ghost use Rattle.solver.specs.Lent.{SameLent};

use crate::tables::{self, Bindings, Demands, Stack, Tables, Work};
use numbers::{Judged, Solved};
use problem::Input;
use verdicts::judging::judge_read;
use verdicts::solving::solve_read;

// The solver, over lent work tables with any content. The judge reads alike: a function for that would be lent three tables to save a literal alone.
pub fn solve_with(input: &[u8], output: &mut [u8], tables: &mut Tables) -> Solved
    ensures same { SameLent tables.old tables.new }
    ensures solved { result_of result output.new ≡ run.solve input.now output.old }
{
    let c = reader::read(
        input,
        &mut *tables.places,
        &mut *tables.assumed,
        &mut *tables.node_variables,
    )?;
    let input = Input {
        bytes: input,
        places: &*tables.places,
    };
    solve_read(
        &input,
        c,
        output,
        &*tables.assumed,
        &*tables.node_variables,
        &mut tables.work,
        &mut *tables.marks,
    )
}

// The judge, over lent work tables with any content.
pub fn judge_with(input: &[u8], tables: &mut Tables) -> Judged
    ensures same { SameLent tables.old tables.new }
    ensures judged { judgement_given result ≡ run.judge input.now }
{
    let c = reader::read(
        input,
        &mut *tables.places,
        &mut *tables.assumed,
        &mut *tables.node_variables,
    )?;
    let input = Input {
        bytes: input,
        places: &*tables.places,
    };
    judge_read(
        &input,
        c,
        &*tables.assumed,
        &*tables.node_variables,
        &mut tables.work,
        &mut *tables.marks,
    )
}

// The solver. The literal of the tables stands here and in `judge`: a struct that owns the ten, to be lent by one function, was tried, and a literal with an
// array of arrays for a field is not covered by the borrow checker.
pub fn solve(input: &[u8], output: &mut [u8]) -> Solved
    ensures { result_of result output.new ≡ run.solve input.now output.old }
{
    solve_with(
        input,
        output,
        &mut Tables {
            places: &mut tables::EMPTY_PLACES,
            assumed: &mut tables::EMPTY_ASSUMED,
            node_variables: &mut tables::EMPTY_NODE_VARIABLES,
            work: Work {
                stack: Stack {
                    heads: &mut tables::EMPTY_HEADS,
                    images: &mut tables::EMPTY_IMAGES,
                },
                bindings: Bindings {
                    made: &mut tables::EMPTY_MADE,
                    values: &mut tables::EMPTY_VALUES,
                },
                demands: Demands {
                    asked: &mut tables::EMPTY_ASKED,
                    firsts: &mut tables::EMPTY_FIRSTS,
                },
            },
            marks: &mut tables::EMPTY_MARKS,
        },
    )
}

// The judge.
pub fn judge(input: &[u8]) -> Judged
    ensures { judgement_given result ≡ run.judge input.now }
{
    judge_with(
        input,
        &mut Tables {
            places: &mut tables::EMPTY_PLACES,
            assumed: &mut tables::EMPTY_ASSUMED,
            node_variables: &mut tables::EMPTY_NODE_VARIABLES,
            work: Work {
                stack: Stack {
                    heads: &mut tables::EMPTY_HEADS,
                    images: &mut tables::EMPTY_IMAGES,
                },
                bindings: Bindings {
                    made: &mut tables::EMPTY_MADE,
                    values: &mut tables::EMPTY_VALUES,
                },
                demands: Demands {
                    asked: &mut tables::EMPTY_ASKED,
                    firsts: &mut tables::EMPTY_FIRSTS,
                },
            },
            marks: &mut tables::EMPTY_MARKS,
        },
    )
}
