// One problem on standard input, the solver's lines on standard output. An input over 65,535 bytes fills the room of 65,536, and the solver refuses it.
#![tactic(auto)]

ghost use Rattle.std.specs.Prelude.{◌*◌, max, length};
ghost use Rattle.solve.specs.Serving.{solver_gives};

use exchange::{Work, Worked};
use numbers::Given;

// The output that the answer is written to.
#[derive(Drop)]
struct Solver<'a> {
    output: &'a mut [u8],
}

impl<'a> Work for Solver<'a> {
    ghost room = { λ solver. max (4 * length solver.output.now) 33 };

    ghost gives = { λ solver. solver_gives solver.output.now };

    fn work(&mut self, problem: &[u8], out: &mut [u8]) -> Worked {
        let output = &mut *self.output;
        let given = Given::from(solver::entries::solve(problem, output));
        let end = printer::solver_lines(out, 0, given, output);
        Worked { given, end }
    }
}

fn main(rt: HostRuntime) {
    let mut from = rt.stdin();
    let mut to = rt.stdout();
    let mut errors = rt.stderr();
    let mut input = [0u8; 65536];
    let mut output = [0u8; 16384];
    let mut out = [0u8; 65536];
    let mut solver = Solver {
        output: &mut output,
    };
    let served = exchange::serve(
        &mut from,
        &mut to,
        &mut errors,
        &rt,
        &mut input,
        &mut out,
        &mut solver,
    );
    exchange::close(&mut errors, &rt, served);
}
