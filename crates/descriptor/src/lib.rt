// One read and one write, each made again while it cannot be done now.
//
// An answer can be made here alone, and here it is made of what the reader or the writer gave back: so a contract that speaks of an answer speaks of a
// call. Where the type says what a reader has left or a writer holds, the contracts say which bytes were moved. A process's own input and output do not
// say it: what the system does there is tested.
#![tactic(auto)]

ghost use Rattle.std.specs.Prelude.{◌≡◌, ◌<◌, IfSome, length, take};
ghost use Rattle.std.specs.Io.KnownBytes.{Appends, Consumes, IsAtEnd};
ghost use Rattle.std.specs.IoError.{raw_os_error};
ghost use Rattle.descriptor.specs.Answers.{Moved, moved_of, failed_of, error_of, fault_of, tries_again};

use std::io::{ErrorKind, Read, Write};
use std::time::{Clock, Duration};
use std::{io, thread};

// How many bytes the call was asked to move, and what it answered: how many it moved, or the system's number for why it failed.
#[derive(Clone, Copy, PartialEq, Eq)]
pub struct Answer {
    asked: usize,
    got: Result<usize, i32>,
}

impl Answer {
    // No call was made. An Answer and no Option of one: Fills and Puts speak of the last answer also where nothing was to be read or written.
    pub fn none() -> Answer
        ensures { (result.asked ≡ 0) × (result.got ≡ Ok 0) }
    {
        Answer {
            asked: 0,
            got: Ok(0),
        }
    }

    pub fn failed(&self) -> bool
        ensures { result ≡ failed_of self.now.got }
    {
        self.got.is_err()
    }

    pub fn moved(&self) -> usize
        ensures { result ≡ moved_of self.now.got }
    {
        self.got.unwrap_or(0)
    }

    // Why the call failed, as the system numbers it, and 0 where it did not. 0 and no Option: a write that took nothing failed with no error, and notice
    // tells of it in the system's words for 0.
    pub fn error(&self) -> i32
        ensures { result ≡ error_of self.now.got }
    {
        self.got.err().unwrap_or(0)
    }
}

// The system's numbers for a signal that came, for nothing that can be moved now, and for a failure that it has no other word for.
const EINTR: i32 = 4;

const EAGAIN: i32 = 11;

const EIO: i32 = 5;

// Why a call failed: a signal came before anything was moved, nothing can be moved now, or something that does not pass.
#[derive(Clone, Copy, PartialEq, Eq)]
enum Fault {
    Interrupted,
    Busy,
    Lasting,
}

impl From<i32> for Fault {
    ghost from_gives = { λ error fault. fault ≡ fault_of error };

    fn from(error: i32) -> Fault {
        match error {
            EINTR => Fault::Interrupted,
            EAGAIN => Fault::Busy,
            _ => Fault::Lasting,
        }
    }
}

// Waits a millisecond: long enough that waiting costs next to nothing, and too short to be noticed.
fn rest<C: Clock>(clock: &C) {
    thread::sleep(clock, Duration::from_millis(1));
}

// Whether a call that answered so is to be made again; where it has to wait first, it has.
fn again<C: Clock>(clock: &C, got: Result<usize, i32>) -> bool
    ensures { result ≡ tries_again got }
{
    let Err(error) = got else {
        return false;
    };
    match Fault::from(error) {
        Fault::Interrupted => true,
        Fault::Busy => {
            rest(clock);
            true
        }
        Fault::Lasting => false,
    }
}

// The system's number for an error, or one that stands for it.
fn number_of(error: io::Error) -> i32
    ensures { IfSome (raw_os_error error) (λ number. result ≡ number) }
{
    if let Some(number) = error.raw_os_error() {
        return number;
    }
    match error.kind() {
        ErrorKind::Interrupted => EINTR,
        ErrorKind::WouldBlock => EAGAIN,
        _ => EIO,
    }
}

// Reads once. A signal, or an input that has nothing yet, is no answer; after 2^64 such turns it is one. `write` goes over its calls likewise, and not by one
// function that takes the call: of what a closure that is called again leaves in the reader or the writer that it borrows, a proof knows nothing. The clock
// goes beside: a program lends one to its input, its output and its errors alike, so a value of a reader or writer and its clock would be three of them.
pub fn read<R: Read, C: Clock>(reader: &mut R, clock: &C, buf: &mut [u8]) -> Answer
    ensures asked_value { result.asked ≡ length buf.new }
    ensures moved { Moved (length buf.new) result.got }
    ensures bytes { Consumes (R.remaining reader.old) (R.remaining reader.new) (take (moved_of result.got) buf.new) }
    ensures end { result.got ≡ Ok 0 → 0 < length buf.new → IsAtEnd (R.remaining reader.new) }
{
    let asked = buf.len();
    let mut got = reader.read(buf).map_err(number_of);
    for _ in 0..usize::MAX {
        if !again(clock, got) {
            break;
        }
        got = reader.read(buf).map_err(number_of);
    }
    Answer { asked, got }
}

// Writes once. A signal, or an output that takes nothing now, is no answer; after 2^64 such turns it is one.
pub fn write<W: Write, C: Clock>(writer: &mut W, clock: &C, buf: &[u8]) -> Answer
    ensures asked_value { result.asked ≡ length buf.now }
    ensures moved { Moved (length buf.now) result.got }
    ensures bytes { Appends (W.contents writer.old) (W.contents writer.new) (take (moved_of result.got) buf.now) }
{
    let mut got = writer.write(buf).map_err(number_of);
    for _ in 0..usize::MAX {
        if !again(clock, got) {
            break;
        }
        got = writer.write(buf).map_err(number_of);
    }
    Answer {
        asked: buf.len(),
        got,
    }
}
