// What a program tells on standard error. A program ends with 0 whatever came, and the script that starts it goes by these lines: nothing, `refused`, `refused`
// and `text`, `cut`, or why the input could not be read or the output not be written. Of the first four the contracts say what is written to a writer
// that knows what it holds; that a process's standard error takes a line, and the words for why something failed, are tested and not proved.
#![tactic(auto)]

ghost use Rattle.std.specs.Prelude.{false, ◌||◌, ◌≡◌};
ghost use Rattle.sets.specs.Bits.{among};
ghost use Rattle.notice.specs.Notices.{plain, in_comment, looks, is_text, no_problem, notice_of};
ghost use Rattle.notice.specs.Told.{said, cut_said, Tells};

use descriptor::Answer;
use numbers::Given;
use std::fmt::InlineText;
use std::io;
use std::io::Write;
use std::time::Clock;

// What there is to say of an answer: text means that a problem was refused which looks like hexadecimal text. Nothing is a word of the definition notice_of,
// which has three.
#[derive(Clone, Copy, PartialEq, Eq)]
pub enum Notice {
    Nothing,
    Refused,
    Text,
}

// Whether what comes after the byte stands in a comment.
fn in_comment(comment: bool, byte: u8) -> bool
    ensures { result ≡ in_comment comment byte }
{
    if comment { byte != b'\n' } else { byte == b'#' }
}

// Whether the byte may stand in hexadecimal text.
fn suits(comment: bool, byte: u8) -> bool
    ensures { result ≡ (comment || among byte plain) }
{
    comment || b"0123456789abcdefABCDEF \t\r\n#".contains(&byte)
}

fn looks_like_text(bytes: &[u8]) -> bool
    ensures { result ≡ looks false bytes.now }
{
    let mut comment = false;
    for &byte in bytes {
        if !suits(comment, byte) {
            return false;
        }
        comment = in_comment(comment, byte);
    }
    true
}

// Whether the first bytes, at most 64, look like hexadecimal text.
fn is_text(input: &[u8]) -> bool
    ensures { result ≡ is_text input.now }
{
    !input.is_empty() && looks_like_text(&input[..input.len().min(64)])
}

// Whether a problem that is no problem from its first byte on is refused so. Of any number and place, so that 2 and 3 stand here as numbers.
fn is_no_problem(given: Given) -> bool
    ensures { result ≡ no_problem given.number given.place }
{
    given.place == 0 && matches!(given.number, 2 | 3)
}

// Of any number and place, also such as the table has not.
#[tactic(auto, unfolding(crate::specs::Notices::notice_of))]
pub fn of(given: Given, input: &[u8]) -> Notice
    ensures { result ≡ notice_of given.number given.place input.now }
{
    if given.number == 0 {
        return Notice::Nothing;
    }
    if is_no_problem(given) && is_text(input) {
        return Notice::Text;
    }
    Notice::Refused
}

// Nothing of a line is told after a write of it that failed.
pub fn tell<W: Write, C: Clock>(errors: &mut W, clock: &C, notice: Notice)
    ensures { Tells (W.contents errors.old) (W.contents errors.new) (said notice) }
{
    match notice {
        Notice::Nothing => {}
        Notice::Refused => {
            let _ = outlet::put(errors, clock, b"refused\n");
        }
        Notice::Text => {
            let _ = outlet::put(errors, clock, b"refused\ntext\n");
        }
    }
}

// The stream ended inside a length or a problem.
pub fn cut<W: Write, C: Clock>(errors: &mut W, clock: &C)
    ensures { Tells (W.contents errors.old) (W.contents errors.new) cut_said }
{
    let _ = outlet::put(errors, clock, b"cut\n");
}

// The system's words for an error, without the number that the library puts behind them.
fn words_of(told: &str) -> &str {
    match told.split_once(" (os error ") {
        Some((words, _)) => words,
        None => told,
    }
}

// Says what failed and why. The two below have a name each, so that each text stands once: what they have in common is here.
fn fail<W: Write, C: Clock>(errors: &mut W, clock: &C, what: &[u8], error: i32) {
    let told = InlineText::<256>::of(io::Error::from_raw_os_error(error));
    let _ = outlet::put(errors, clock, what);
    let _ = outlet::put(errors, clock, b": ");
    let _ = outlet::put(errors, clock, words_of(told.as_str()).as_bytes());
    let _ = outlet::put(errors, clock, b"\n");
}

// Says why the read failed that gave this answer.
pub fn unreadable<W: Write, C: Clock>(errors: &mut W, clock: &C, answer: Answer) {
    fail(
        errors,
        clock,
        b"standard input cannot be read",
        answer.error(),
    );
}

// Says why the write failed that gave this answer.
pub fn unwritable<W: Write, C: Clock>(errors: &mut W, clock: &C, answer: Answer) {
    fail(
        errors,
        clock,
        b"standard output cannot be written",
        answer.error(),
    );
}
