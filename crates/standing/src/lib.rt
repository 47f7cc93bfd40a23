// How a stream stands after a turn: it goes on only after a problem that came whole and a writing that was whole. Where it is cut, a line says so.
#![tactic(auto)]

ghost use Rattle.std.specs.Prelude.{◌≡◌, ◌≤◌, IfErr, length, take};
ghost use Rattle.std.specs.Io.KnownBytes.{Appends};
ghost use Rattle.outlet.specs.Puts.{taken_of};
ghost use Rattle.printer.specs.Lines.{cut_line};
ghost use Rattle.standing.specs.Settled.{ended_by, Handed, read_of, said_of, Settled, standing_of, written_of};

use frames::{Frame, Stop};
use intake::{Filled, Unread};
use outlet::{Taken, Unwritten};
use std::io::Write;
use std::time::Clock;

// A turn for which a problem came whole: the problem, and what became of writing its block.
#[derive(Clone, Copy, PartialEq, Eq)]
pub struct Turn {
    pub frame: Frame,
    pub taken: Result<Taken, Unwritten>,
}

// How the stream ends, with what came of the last reading: it was gone through; it is cut, and a line that says so was written whole; standard input
// failed; or standard output did.
#[derive(Clone, Copy, PartialEq, Eq)]
pub enum Ending {
    Through(Filled),
    Cut(Filled, Taken),
    Unreadable(Unread),
    Unwritten(Filled, Unwritten),
}

// The line that says where the stream is cut.
fn cut<W: Write, C: Clock>(
    output: &mut W,
    clock: &C,
    count: usize,
    out: &mut [u8],
) -> Result<Taken, Unwritten>
    requires { 67 ≤ length out.old }
    ensures handed { Handed (cut_line count) out.new result }
    ensures bytes { Appends (W.contents output.old) (W.contents output.new) (take (taken_of result) (cut_line count)) }
{
    let end = printer::cut_line(out, 0, count);
    outlet::put(output, clock, &out[..end])
}

// The stream ends where a writing was not whole.
fn standing(filled: Filled, taken: Result<Taken, Unwritten>) -> Result<Taken, Ending>
    ensures { result ≡ standing_of filled taken }
{
    taken.map_err(|unwritten| Ending::Unwritten(filled, unwritten))
}

// What a turn means for the stream: it goes on only where a problem came whole and its block was written whole.
pub fn settled<W: Write, C: Clock>(
    output: &mut W,
    clock: &C,
    turned: Result<Turn, Stop>,
    count: usize,
    out: &mut [u8],
) -> Result<Taken, Ending>
    requires { 67 ≤ length out.old }
    ensures settled { Settled count out.old out.new turned result }
    ensures bytes { Appends (W.contents output.old) (W.contents output.new) (take (written_of result) (said_of count turned)) }
    ensures read { IfErr result (λ e. ended_by e ≡ read_of turned) }
{
    match turned {
        Ok(turn) => standing(turn.frame.filled, turn.taken),
        Err(Stop::End(filled)) => Err(Ending::Through(filled)),
        Err(Stop::Cut(filled)) => {
            let taken = standing(filled, cut(output, clock, count, out))?;
            Err(Ending::Cut(filled, taken))
        }
        Err(Stop::Unreadable(unread)) => Err(Ending::Unreadable(unread)),
    }
}
