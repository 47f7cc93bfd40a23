// A stream's next problem, after its length in four bytes, high byte first: read to the front of the lent bytes, as far as they go.
#![tactic(auto)]

ghost use Rattle.std.specs.Prelude.{◌≡◌, ◌⊎◌, ◌≤◌, ◌<◌, length};
ghost use Rattle.frames.specs.Came.{at_start, Told};
ghost use Rattle.frames.specs.declared.Stop.TheVariants.{Unreadable};

use intake::{Filled, Unread};
use std::cmp;
use std::io::Read;
use std::time::Clock;

// A problem that came whole: in how many of the lent bytes it lies, and what came of the last reading.
#[derive(Clone, Copy, PartialEq, Eq)]
pub struct Frame {
    pub size: usize,
    pub filled: Filled,
}

// Why no problem came whole, and what came of the last reading: the stream ended before it, or inside its length or its bytes; a read failed.
#[derive(Clone, Copy, PartialEq, Eq)]
pub enum Stop {
    End(Filled),
    Cut(Filled),
    Unreadable(Unread),
}

impl From<Unread> for Stop {
    ghost from_gives = { λ unread stop. stop ≡ Unreadable unread };

    fn from(unread: Unread) -> Stop {
        Stop::Unreadable(unread)
    }
}

// Reads as many bytes as are wanted to the front of the lent ones. Once they are there, n of the lent bytes are what is to come.
fn part<R: Read, C: Clock>(
    reader: &mut R,
    clock: &C,
    input: &mut [u8],
    wanted: usize,
    n: usize,
) -> Result<Frame, Stop>
    requires wanted_in_bounds { wanted ≤ length input.old }
    requires fact { (n ≡ wanted) ⊎ (n ≡ length input.old) }
    ensures { Told (length input.new) result }
{
    let filled = intake::fill(reader, clock, &mut input[..wanted])?;
    if filled.count < wanted {
        return Err(Stop::Cut(filled));
    }
    Ok(Frame { size: n, filled })
}

// Passes over as many bytes as are left of a problem that is longer than the room: the room stands for it.
fn passed<R: Read, C: Clock>(
    reader: &mut R,
    clock: &C,
    input: &mut [u8],
    more: usize,
    front: Frame,
) -> Result<Frame, Stop>
    requires input_nonzero { 0 < length input.old }
    requires told { Told (length input.old) (Ok front) }
    ensures { Told (length input.new) result }
{
    let room = input.len();
    let mut left = more;
    let mut last = front;
    // Moves on by what each call moved, so no range goes over it.
    while 0 < left {
        let most = cmp::min(left, room);
        last = part(reader, clock, input, most, room)?;
        left -= most;
    }
    Ok(last)
}

// A problem of so many bytes. One that is longer than the lent bytes fills them, and its rest is passed over.
fn body<R: Read, C: Clock>(
    reader: &mut R,
    clock: &C,
    input: &mut [u8],
    size: usize,
) -> Result<Frame, Stop>
    requires { 0 < length input.old }
    ensures { Told (length input.new) result }
{
    let n = cmp::min(size, input.len());
    let front = part(reader, clock, input, n, n)?;
    passed(reader, clock, input, size - n, front)
}

// A stream that stops where a length would begin is at its end, and not cut.
fn at_start(stop: Stop) -> Stop
    ensures { result ≡ at_start stop }
{
    match stop {
        Stop::Cut(filled) if filled.count == 0 => Stop::End(filled),
        _ => stop,
    }
}

// The next problem, after its length. Where not even the first byte of the length comes, the stream is at its end.
pub fn next<R: Read, C: Clock>(reader: &mut R, clock: &C, input: &mut [u8]) -> Result<Frame, Stop>
    requires { 4 ≤ length input.old }
    ensures { Told (length input.new) result }
{
    part(reader, clock, input, 4, 4).map_err(at_start)?;
    // Of a u32 no From makes a usize.
    let size = field::four(input, 0) as usize;
    body(reader, clock, input, size)
}
