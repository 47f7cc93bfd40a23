// Writing bytes whole: until all are taken, a write fails, or one takes nothing. What was taken is then a prefix, and nothing follows a failed write.
#![tactic(auto)]

ghost use Rattle.std.specs.Prelude.{◌≤◌, ◌≡◌, length, take};
ghost use Rattle.std.specs.Io.KnownBytes.{Appends};
ghost use Rattle.outlet.specs.Puts.{taken_of, Puts};

use descriptor::Answer;
use std::io::Write;
use std::time::Clock;

// All bytes were taken: how many, and what the last write answered. It can be made here alone, and so can what stands for the rest, so that none stands
// for a write that was not made.
#[derive(Clone, Copy, PartialEq, Eq)]
pub struct Taken {
    count: usize,
    last: Answer,
}

// Not all were taken: how many, and what the write after them answered, which failed or took nothing. Two types of one form: so Ending can hold a writing
// that was not whole and no other.
#[derive(Clone, Copy, PartialEq, Eq)]
pub struct Unwritten {
    count: usize,
    last: Answer,
}

impl Taken {
    // What the last write answered.
    pub fn last(&self) -> Answer
        ensures { result ≡ self.now.last }
    {
        let Taken { last, .. } = *self;
        last
    }
}

impl Unwritten {
    // What the last write answered.
    pub fn last(&self) -> Answer
        ensures { result ≡ self.now.last }
    {
        self.last
    }
}

// Nothing was to be written.
pub fn nothing() -> Taken
    ensures { Puts 0 (Ok result) }
{
    Taken {
        count: 0,
        last: Answer::none(),
    }
}

// Writes the bytes. No call comes after a write that failed.
pub fn put<W: Write, C: Clock>(writer: &mut W, clock: &C, buf: &[u8]) -> Result<Taken, Unwritten>
    ensures count_in_bounds { taken_of result ≤ length buf.now }
    ensures puts { Puts (length buf.now) result }
    ensures bytes { Appends (W.contents writer.old) (W.contents writer.new) (take (taken_of result) buf.now) }
{
    let mut count = 0;
    let mut last = Answer::none();
    // Moves on by what each call moved, so no range goes over it.
    while count < buf.len() {
        last = descriptor::write(writer, clock, &buf[count..]);
        if last.moved() == 0 {
            return Err(Unwritten { count, last });
        }
        count += last.moved();
    }
    Ok(Taken { count, last })
}
