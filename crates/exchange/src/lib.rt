// What solve and judge have in common: a problem is read and worked, and its answer told of on standard error and written to standard output.
#![tactic(auto)]

ghost use Rattle.std.specs.Prelude.{ℕ, ◌≤◌, ◌≡◌, List, length, take};
ghost use Rattle.std.specs.Io.KnownBytes.{Appends, Consumes};
ghost use Rattle.exchange.specs.Exchanges.{Gives, reading_of, Serves, told_of, Works, written_of};
ghost use Rattle.intake.specs.Fills.{came_of, Fills};
ghost use Rattle.notice.specs.Notices.{notice_of};
ghost use Rattle.notice.specs.Told.{said, Tells};
ghost use Rattle.outlet.specs.Puts.{taken_of, Puts};

use intake::{Filled, Unread};
use notice::Notice;
use numbers::Given;
use outlet::{Taken, Unwritten};
use std::io::{Read, Write};
use std::time::Clock;

// What was given back for a problem, and where the lines that it prints end. A number and a place, and no Result: Works and notice are said of any.
#[derive(Clone, Copy, PartialEq, Eq)]
pub struct Worked {
    pub given: Given,
    pub end: usize,
}

// How a problem was read, what there was to say of its answer, where the answer's lines end, and what became of writing them. Where a read failed there is
// none of it: nothing is worked, told or written.
#[derive(Clone, Copy, PartialEq, Eq)]
pub struct Served {
    pub filled: Filled,
    pub notice: Notice,
    pub end: usize,
    pub taken: Result<Taken, Unwritten>,
}

// What a program does with a problem.
pub trait Work {
    // How much room it wants for the lines, and what there is to give back for a problem.
    ghost room: { Self → ℕ };

    ghost gives: { Self → List ℕ → Gives };

    // What the problem prints, whole, in `out` from its start.
    fn work(&mut self, problem: &[u8], out: &mut [u8]) -> Worked
        requires { room self.old ≤ length out.old }
        ensures { Works (gives self.old problem.now).number (gives self.old problem.now).place (gives self.old problem.now).text out.new result };
}

// Tells of the answer and writes its lines. Standard error comes first, so that no call comes after a write that failed.
pub fn answered<W: Write, E: Write, C: Clock>(
    output: &mut W,
    errors: &mut E,
    clock: &C,
    filled: Filled,
    given: Given,
    problem: &[u8],
    lines: &[u8],
) -> Served
    ensures filled_value { (result.filled ≡ filled) × (result.notice ≡ notice_of given.number given.place problem.now) }
    ensures end_value { (result.end ≡ length lines.now) × Puts (length lines.now) result.taken }
    ensures written { Appends (W.contents output.old) (W.contents output.new) (take (taken_of result.taken) lines.now) }
    ensures told { Tells (E.contents errors.old) (E.contents errors.new) (said result.notice) }
{
    let notice = notice::of(given, problem);
    notice::tell(errors, clock, notice);
    let taken = outlet::put(output, clock, lines);
    Served {
        filled,
        notice,
        end: lines.len(),
        taken,
    }
}

// Reads a problem, works what was read, and writes what that prints.
pub fn serve<R: Read, W: Write, E: Write, C: Clock, K: Work>(
    from: &mut R,
    to: &mut W,
    errors: &mut E,
    clock: &C,
    input: &mut [u8],
    out: &mut [u8],
    work: &mut K,
) -> Result<Served, Unread>
    requires { K.room work.old ≤ length out.old }
    ensures fills { Fills (length input.new) (reading_of result) }
    ensures serves { Serves (K.gives work.old) input.new out.old out.new result }
    ensures read { Consumes (R.remaining from.old) (R.remaining from.new) (take (came_of (reading_of result)) input.new) }
    ensures written { Appends (W.contents to.old) (W.contents to.new) (written_of result out.new) }
    ensures told { Tells (E.contents errors.old) (E.contents errors.new) (told_of result) }
{
    let filled = intake::fill(from, clock, input)?;
    let problem = &input[..filled.count];
    let Worked { given, end } = work.work(problem, out);
    Ok(answered(to, errors, clock, filled, given, problem, &out[..end]))
}

// Says what went wrong, if anything did.
pub fn close<E: Write, C: Clock>(errors: &mut E, clock: &C, served: Result<Served, Unread>) {
    match served {
        Err(unread) => notice::unreadable(errors, clock, unread.last),
        Ok(served) => {
            if let Err(unwritten) = served.taken {
                notice::unwritable(errors, clock, unwritten.last());
            }
        }
    }
}
