// Reading an input whole: as much as fits the lent bytes, or what came before a read that failed.
#![tactic(auto)]

ghost use Rattle.std.specs.Prelude.{◌≤◌, ◌<◌, ◌≡◌, IfOk, length, take};
ghost use Rattle.std.specs.Io.KnownBytes.{Consumes, IsAtEnd};
ghost use Rattle.intake.specs.Fills.{came_of, Fills};

use descriptor::Answer;
use std::io::Read;
use std::time::Clock;

// How many bytes came, and what the last read answered: the bytes are full, or the input ends there.
#[derive(Clone, Copy, PartialEq, Eq)]
pub struct Filled {
    pub count: usize,
    pub last: Answer,
}

// A read failed: how many bytes came before it, and what it answered. Two types of one form: so Stop and Ending can hold a read that failed and no other.
#[derive(Clone, Copy, PartialEq, Eq)]
pub struct Unread {
    pub count: usize,
    pub last: Answer,
}

// Reads until the bytes are full, the input ends, or a read fails. No call comes after a read that failed.
pub fn fill<R: Read, C: Clock>(reader: &mut R, clock: &C, buf: &mut [u8]) -> Result<Filled, Unread>
    ensures count_in_bounds { (came_of result ≤ length buf.new) × (came_of result ≡ length (take (came_of result) buf.new)) }
    ensures fills { Fills (length buf.new) result }
    ensures bytes { Consumes (R.remaining reader.old) (R.remaining reader.new) (take (came_of result) buf.new) }
    ensures end { IfOk result (λ f. f.count < length buf.new → IsAtEnd (R.remaining reader.new)) }
{
    let mut count = 0;
    let mut last = Answer::none();
    // Moves on by what each call moved, so no range goes over it.
    while count < buf.len() {
        last = descriptor::read(reader, clock, &mut buf[count..]);
        if last.failed() {
            return Err(Unread { count, last });
        }
        if last.moved() == 0 {
            break;
        }
        count += last.moved();
    }
    Ok(Filled { count, last })
}
