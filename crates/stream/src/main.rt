// A stream of problems on standard input, each after its length in four bytes, high byte first. For each the solver's lines, the judge's line and
// an empty line on standard output, in order, before the next is read: so nothing grows with their number, and a stream that is cut loses nothing
// before the cut. After a write that failed nothing more is read or written. The work tables are made once.
#![tactic(auto)]

ghost use Rattle.std.specs.Prelude.{◌+◌, ◌*◌, ◌≤◌, length, take};
ghost use Rattle.std.specs.Io.KnownBytes.{Appends};
ghost use Rattle.solver.specs.Lent.{SameLent};
ghost use Rattle.stream.specs.Turned.{taken_by, text_of, Turned};
ghost use Rattle.stream.specs.Written.{Wrote};

use frames::Stop;
use numbers::Given;
use solver::tables::{self, Bindings, Demands, Stack, Tables, Work};
use standing::{Ending, Turn};
use std::io::{Read, Write};
use std::time::Clock;

// Where the problems come from, where their blocks go, and what rests between two tries.
#[derive(Drop)]
struct Ports<R, W, C> {
    from: R,
    to: W,
    clock: C,
}

// One turn: the next problem is read, solved and judged, and its block is written.
fn turn<R: Read, W: Write, C: Clock>(
    ports: &mut Ports<R, W, C>,
    input: &mut [u8],
    output: &mut [u8],
    out: &mut [u8],
    tables: &mut Tables,
) -> Result<Turn, Stop>
    requires in_bounds { 4 ≤ length input.old }
    requires output_in_bounds { 4 * length output.old + 67 ≤ length out.old }
    ensures same { SameLent tables.old tables.new }
    ensures turned { Turned input.new output.old out.new result }
    ensures written { Appends (W.contents ports.old.to) (W.contents ports.new.to) (take (taken_by result) (text_of input.new output.old result)) }
{
    let frame = frames::next(&mut ports.from, &ports.clock, input)?;
    let problem = &input[..frame.size];
    let solved = Given::from(solver::entries::solve_with(problem, output, tables));
    let judged = Given::from(solver::entries::judge_with(problem, tables));
    let end = block::lines(out, solved, output, judged);
    let taken = outlet::put(&mut ports.to, &ports.clock, &out[..end]);
    Ok(Turn { frame, taken })
}

// Every problem of the stream, one after the other, until none comes or its block could not be written whole.
fn all<R: Read, W: Write, C: Clock>(
    ports: &mut Ports<R, W, C>,
    input: &mut [u8],
    output: &mut [u8],
    out: &mut [u8],
    tables: &mut Tables,
) -> Result<(), Ending>
    requires in_bounds { 4 ≤ length input.old }
    requires output_in_bounds { 4 * length output.old + 67 ≤ length out.old }
    ensures same { SameLent tables.old tables.new }
    ensures wrote { Wrote (W.contents ports.old.to) (W.contents ports.new.to) result }
{
    for count in 0..usize::MAX {
        let turned = turn(ports, input, output, out, tables);
        standing::settled(&mut ports.to, &ports.clock, turned, count, out)?;
    }
    Ok(())
}

// What whoever started the program has to know, since it ends with 0 whatever came. That `main` tells what `all` gives back is tested and not proved.
fn tell<E: Write, C: Clock>(errors: &mut E, clock: &C, ended: Result<(), Ending>) {
    match ended {
        Ok(()) => {}
        Err(Ending::Through(_)) => {}
        Err(Ending::Cut(_, _)) => notice::cut(errors, clock),
        Err(Ending::Unreadable(unread)) => notice::unreadable(errors, clock, unread.last),
        Err(Ending::Unwritten(_, unwritten)) => {
            notice::unwritable(errors, clock, unwritten.last());
        }
    }
}

fn main(rt: HostRuntime) {
    let mut ports = Ports {
        from: rt.stdin(),
        to: rt.stdout(),
        clock: rt,
    };
    let mut errors = rt.stderr();
    // The literal of the tables stands here, too: no function hands out what lies in its frame, and a struct that owns them was tried (solver::entries).
    let mut tables = Tables {
        places: &mut tables::EMPTY_PLACES,
        assumed: &mut tables::EMPTY_ASSUMED,
        node_variables: &mut tables::EMPTY_NODE_VARIABLES,
        work: Work {
            stack: Stack {
                heads: &mut tables::EMPTY_HEADS,
                images: &mut tables::EMPTY_IMAGES,
            },
            bindings: Bindings {
                made: &mut tables::EMPTY_MADE,
                values: &mut tables::EMPTY_VALUES,
            },
            demands: Demands {
                asked: &mut tables::EMPTY_ASKED,
                firsts: &mut tables::EMPTY_FIRSTS,
            },
        },
        marks: &mut tables::EMPTY_MARKS,
    };
    let mut input = [0u8; 65536];
    let mut output = [0u8; 16384];
    let mut out = [0u8; 65664];
    let ended = all(&mut ports, &mut input, &mut output, &mut out, &mut tables);
    tell(&mut errors, &rt, ended);
}
