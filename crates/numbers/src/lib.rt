// Document 01's table "Numbers given back". Whoever finds that a problem is to be refused says why and where once, in this form; it is handed on as it is,
// by `?` where nothing else is to be done, and nobody after him has other words for it. The number itself is wanted where it is printed or handed to C.
#![tactic(auto)]

ghost use Rattle.std.specs.Prelude.{◌≡◌};
ghost use Rattle.numbers.specs.Numbers.{number_of, given_of, solver_gives, judge_gives};

// Why a problem is refused: the table's rows, in its order. The first is of the input as a whole, and so is the second, with place 0; the next five are of
// a field, with the offset of its tag; then four of the run, with the equation's number; then those after the run, with 0, the length wanted, and 0.
#[derive(Clone, Copy, PartialEq, Eq)]
pub enum Reason {
    TooLong,
    NoHead,
    Cut,
    UnknownTag,
    WrongLength,
    TooMany,
    NotThere,
    Limit,
    Clash,
    Inside,
    Protected,
    NotFresh,
    TooShort,
    DoesNotHold,
}

impl From<Reason> for u8 {
    ghost from_gives = { λ reason n. n ≡ number_of reason };

    // The table's number.
    fn from(reason: Reason) -> u8 {
        match reason {
            Reason::TooLong => 1,
            Reason::NoHead => 2,
            Reason::Cut => 3,
            Reason::UnknownTag => 4,
            Reason::WrongLength => 5,
            Reason::TooMany => 6,
            Reason::NotThere => 7,
            Reason::Limit => 8,
            Reason::Clash => 9,
            Reason::Inside => 10,
            Reason::Protected => 11,
            Reason::NotFresh => 12,
            Reason::TooShort => 13,
            Reason::DoesNotHold => 14,
        }
    }
}

// A row of the table, and its place.
#[derive(Clone, Copy, PartialEq, Eq)]
pub struct Refusal {
    pub reason: Reason,
    pub place: usize,
}

pub fn refuse(reason: Reason, place: usize) -> Refusal
    ensures { result ≡ record { reason = reason; place = place } }
{
    Refusal { reason, place }
}

// What the solver gives back: the answer's length, or a refusal; and the judge.
pub type Solved = Result<usize, Refusal>;

pub type Judged = Result<(), Refusal>;

// A number of the table and its place, as they are printed and handed to C.
#[derive(Clone, Copy, PartialEq, Eq)]
pub struct Given {
    pub number: u8,
    pub place: usize,
}

impl From<Refusal> for Given {
    ghost from_gives = { λ refusal given. given ≡ given_of refusal };

    fn from(refusal: Refusal) -> Given {
        Given {
            number: u8::from(refusal.reason),
            place: refusal.place,
        }
    }
}

// 0: accepted or held.
fn accepted(place: usize) -> Given
    ensures { result ≡ record { number = 0; place = place } }
{
    Given { number: 0, place }
}

impl From<Solved> for Given {
    ghost from_gives = { λ solved given. given ≡ solver_gives solved };

    // Accepted: the place is the answer's length.
    fn from(solved: Solved) -> Given {
        match solved {
            Ok(length) => accepted(length),
            Err(refusal) => Given::from(refusal),
        }
    }
}

impl From<Judged> for Given {
    ghost from_gives = { λ judged given. given ≡ judge_gives judged };

    // Holds: the place is 0.
    fn from(judged: Judged) -> Given {
        match judged {
            Ok(()) => accepted(0),
            Err(refusal) => Given::from(refusal),
        }
    }
}
