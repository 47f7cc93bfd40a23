// The entries for C: numbers and slices only. What the solver and the judge give back is one word, the number in its high half and the place in its
// low half, and the output as it is left. Nothing is required of what is lent but that it is there.
#![tactic(auto)]

ghost use Rattle.std.specs.Prelude.{◌≡◌, ◌≤◌};
ghost use Rattle.run.specs.Answer as run;
ghost use Rattle.numbers.specs.Numbers.{packed};

use numbers::Given;
use solver::tables::{
    Asked, Assumed, Bindings, Demands, Firsts, Heads, Images, Made, Marks, NodeVariables, Places,
    Stack, Tables, Values, Work,
};

// Number and place in one word. Of a usize no From makes a u64.
fn joined(given: Given) -> u64
    requires { given.place ≤ 65535 }
    ensures { result ≡ packed given.number given.place }
{
    u64::from(given.number) * 4294967296 + given.place as u64
}

// The archive's version in one number: 10000 times the major, 100 times the minor and the patch number. The header has the same, so that a caller can see
// whether the two belong together.
#[unsafe(no_mangle)]
pub extern "C" fn cheesetrestle_version() -> u32
    ensures { result ≡ 100 }
{
    100
}

// The solver over lent work tables with any content.
#[unsafe(no_mangle)]
pub extern "C" fn cheesetrestle_solve_with<'a>(
    input: &[u8],
    output: &mut [u8],
    places: &'a mut Places,
    assumed: &'a mut Assumed,
    node_variables: &'a mut NodeVariables,
    heads: &'a mut Heads,
    images: &'a mut Images,
    made: &'a mut Made,
    values: &'a mut Values,
    asked: &'a mut Asked,
    firsts: &'a mut Firsts,
    marks: &'a mut Marks,
) -> u64
    ensures value { result ≡ packed (run.solve input.now output.old).number
        (run.solve input.now output.old).place }
    ensures output_after { output.new ≡ (run.solve input.now output.old).output }
{
    // The literal stands here and in the judge's entry: a function of the ten tables that makes it would have ten parameters, too, and be no plainer.
    let mut tables = Tables {
        places,
        assumed,
        node_variables,
        work: Work {
            stack: Stack { heads, images },
            bindings: Bindings { made, values },
            demands: Demands { asked, firsts },
        },
        marks,
    };
    joined(Given::from(solver::entries::solve_with(input, output, &mut tables)))
}

// The judge over lent work tables with any content.
#[unsafe(no_mangle)]
pub extern "C" fn cheesetrestle_judge_with<'a>(
    input: &[u8],
    places: &'a mut Places,
    assumed: &'a mut Assumed,
    node_variables: &'a mut NodeVariables,
    heads: &'a mut Heads,
    images: &'a mut Images,
    made: &'a mut Made,
    values: &'a mut Values,
    asked: &'a mut Asked,
    firsts: &'a mut Firsts,
    marks: &'a mut Marks,
) -> u64
    ensures { result ≡ packed (run.judge input.now).0 (run.judge input.now).1 }
{
    let mut tables = Tables {
        places,
        assumed,
        node_variables,
        work: Work {
            stack: Stack { heads, images },
            bindings: Bindings { made, values },
            demands: Demands { asked, firsts },
        },
        marks,
    };
    joined(Given::from(solver::entries::judge_with(input, &mut tables)))
}

// The solver, which makes its work tables itself.
#[unsafe(no_mangle)]
pub extern "C" fn cheesetrestle_solve(input: &[u8], output: &mut [u8]) -> u64
    ensures value { result ≡ packed (run.solve input.now output.old).number
        (run.solve input.now output.old).place }
    ensures output_after { output.new ≡ (run.solve input.now output.old).output }
{
    joined(Given::from(solver::entries::solve(input, output)))
}

// The judge, which makes its work tables itself.
#[unsafe(no_mangle)]
pub extern "C" fn cheesetrestle_judge(input: &[u8]) -> u64
    ensures { result ≡ packed (run.judge input.now).0 (run.judge input.now).1 }
{
    joined(Given::from(solver::entries::judge(input)))
}
