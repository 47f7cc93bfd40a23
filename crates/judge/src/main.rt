// One problem on standard input, the judge's line on standard output. An input over 65,535 bytes fills the room of 65,536, and the judge refuses it.
#![tactic(auto)]

ghost use Rattle.judge.specs.Serving.{judge_gives};

use exchange::{Work, Worked};
use numbers::Given;

#[derive(Drop)]
struct Judge;

impl Work for Judge {
    ghost room = { λ _. 33 };

    ghost gives = { λ _. judge_gives };

    fn work(&mut self, problem: &[u8], out: &mut [u8]) -> Worked {
        let given = Given::from(solver::entries::judge(problem));
        let end = printer::judge_line(out, 0, given);
        Worked { given, end }
    }
}

fn main(rt: HostRuntime) {
    let mut from = rt.stdin();
    let mut to = rt.stdout();
    let mut errors = rt.stderr();
    let mut input = [0u8; 65536];
    let mut out = [0u8; 4096];
    let served = exchange::serve(
        &mut from,
        &mut to,
        &mut errors,
        &rt,
        &mut input,
        &mut out,
        &mut Judge,
    );
    exchange::close(&mut errors, &rt, served);
}
