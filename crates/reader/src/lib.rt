// The reader of document 01: every byte string is a problem, or is refused by number and place. Once through the bytes: a field without a fault is known
// by its first eight bytes as one number; where there is a fault, the field is looked at again to tell which.
#![tactic(auto)]

pub mod nodes; // nodes.rt: nodes, one after the other
pub mod rest; // rest.rt: what is left of the input where a field begins

ghost use Rattle.std.specs.Prelude.{◌≡◌, ◌+◌, ◌<◌, ◌≤◌, Some, None, cond, length, get_or, drop};
ghost use Rattle.sets.specs.Bits.{inserted};
ghost use Rattle.field.specs.Word.{eight, tag_in, first_byte_in, second_byte_in};
ghost use Rattle.reader.specs.Tables.{reader_tables};
ghost use Rattle.reader.specs.Noting.{Headed};
ghost use Rattle.reader.specs.Found.{sized_by, equation_good, freshness_good, assumption_good, protection_good, counted_in, refusal_at, Kept, OtherStepped};
ghost use Rattle.reader.specs.Told.{refused_by, FieldsRead, ReadAs};

use crate::nodes::nodes;
use crate::rest::Rest;
use field::{AtFront, word};
use names::{Atom, Variable};
use numbers::{Reason, Refusal, refuse};
use opening::opened;
use problem::{
    Assumed, Counts, EQUATIONS, FRESHNESS, MOST_EQUATIONS, MOST_FRESHNESS, Places, keep,
};
use says::{Sizes, field_says};
use sets::VariableSet;
use variables::NodeVariables;

// The longest input that is read.
const MOST_BYTES: usize = 65535;

// Each of these keeps what the field says and gives its size, if it has no fault: a function for each row of document 01's table, as in says.
fn equation(w: u64, c: Counts, places: &mut Places) -> Option<usize>
    ensures { Kept (equation_good (sized_by c) w) 7 (512 + c.equations) w result places.old places.new }
{
    if word::key(w) != 0x200004 {
        return None;
    }
    if usize::from(c.equations) >= MOST_EQUATIONS {
        return None;
    }
    if word::first_two(w) >= c.nodes {
        return None;
    }
    if word::last_two(w) >= c.nodes {
        return None;
    }
    keep::put(places, EQUATIONS + usize::from(c.equations), w);
    Some(7)
}

fn freshness(w: u64, c: Counts, places: &mut Places) -> Option<usize>
    ensures { Kept (freshness_good (sized_by c) w) 6 (576 + c.freshness) w result places.old places.new }
{
    if word::key(w) != 0x210003 {
        return None;
    }
    if usize::from(c.freshness) >= MOST_FRESHNESS {
        return None;
    }
    if word::first_byte(w) >= c.atoms {
        return None;
    }
    if word::middle_two(w) >= c.nodes {
        return None;
    }
    keep::put(places, FRESHNESS + usize::from(c.freshness), w);
    Some(6)
}

fn assumption(w: u64, c: Counts, assumed: &mut Assumed) -> Option<usize>
    requires { c.variables ≤ 64 }
    ensures { Kept (assumption_good (sized_by c) w) 5 (second_byte_in w)
        (inserted 32 (get_or assumed.old (second_byte_in w) 0) (first_byte_in w)) result
        assumed.old assumed.new }
{
    if word::key(w) != 0x220002 {
        return None;
    }
    if word::first_byte(w) >= c.atoms {
        return None;
    }
    if word::second_byte(w) >= c.variables {
        return None;
    }
    keep::assume(
        assumed,
        Atom(word::first_byte(w)),
        Variable(word::second_byte(w)),
    );
    Some(5)
}

fn protection(w: u64, c: Counts) -> Option<usize>
    ensures { result ≡ cond (protection_good (sized_by c) w) (Some 4) None }
{
    if word::key(w) != 0x300001 {
        return None;
    }
    if word::first_byte(w) >= c.variables {
        return None;
    }
    Some(4)
}

// The field at a place of the input as one that is no node. Its tag stays a number, as a node's does.
fn other(rest: &Rest, c: Counts, places: &mut Places, assumed: &mut Assumed) -> Option<usize>
    requires { c.variables ≤ 64 }
    ensures { OtherStepped rest.now.bytes.now rest.now.place c places.old assumed.old result
        places.new assumed.new }
{
    let w = rest.word;
    if rest.bytes.len() < 3 + word::length(w) {
        return None;
    }
    match word::tag(w) {
        0x20 => equation(w, c, places),
        0x21 => freshness(w, c, places),
        0x22 => assumption(w, c, assumed),
        0x30 => protection(w, c),
        _ => None,
    }
}

// It is counted. Told by the tag once more: what other keeps goes back as a size alone, as Kept says it of each field.
fn counted(w: u64, c: Counts) -> Counts
    requires { (tag_in w ≡ 0x20 → c.equations < 64) × (tag_in w ≡ 0x21 → c.freshness < 64) }
    ensures { result ≡ counted_in w c }
{
    match word::tag(w) {
        0x20 => Counts {
            equations: c.equations + 1,
            ..c
        },
        0x21 => Counts {
            freshness: c.freshness + 1,
            ..c
        },
        0x30 => Counts {
            protected: c.protected.with(Variable(word::first_byte(w))),
            ..c
        },
        _ => c,
    }
}

// The refusal of a field that has a fault.
fn refusal(rest: &Rest, c: Counts) -> Option<Refusal>
    ensures { refused_by rest.now.place result ≡ refusal_at (sized_by c) rest.now.place rest.now.bytes.now }
{
    match field::front(rest.bytes) {
        AtFront::End | AtFront::Cut => Some(refuse(Reason::Cut, rest.place)),
        AtFront::Whole(tag, n) => {
            let sizes = Sizes {
                atoms: c.atoms,
                variables: c.variables,
                nodes: c.nodes,
                equations: c.equations,
                freshness: c.freshness,
            };
            match field_says(tag, field::body(rest.bytes, n), sizes) {
                Ok(_) => None,
                Err(reason) => Some(refuse(reason, rest.place)),
            }
        }
    }
}

// The fields after the head, in an input that is not too long. It moves on by what nodes and other took. The tables stay apart, as
// at read, and beside the bytes: an Input lends places to be read, and here they are written.
fn fields(
    s: &[u8],
    head: Counts,
    places: &mut Places,
    assumed: &mut Assumed,
    node_variables: &mut NodeVariables,
) -> Result<Counts, Refusal>
    requires { Headed (length s.now) head }
    ensures { FieldsRead s.now head
        (reader_tables places.old assumed.old node_variables.old) result
        (reader_tables places.new assumed.new node_variables.new) }
{
    let mut c = head;
    let mut at: usize = 9;
    loop {
        let reached = nodes(s, at, c, places, node_variables);
        let rest = Rest::known(s, reached.place, reached.word);
        c.nodes = reached.nodes;
        if rest.bytes.is_empty() {
            return Ok(c);
        }
        let Some(size) = other(&rest, c, places, assumed) else {
            return Err(refusal(&rest, c).unwrap());
        };
        c = counted(rest.word, c);
        at = rest.place + size;
    }
}

// Every byte string, and tables with any content. Only what is in use is written: a short problem pays for a short problem.
// The three tables stay apart, as at nodes::put: docs/PROVED.md names read with ReadAs, which is of these tables.
pub fn read(
    s: &[u8],
    places: &mut Places,
    assumed: &mut Assumed,
    node_variables: &mut NodeVariables,
) -> Result<Counts, Refusal>
    ensures { ReadAs s.now
        (reader_tables places.old assumed.old node_variables.old) result
        (reader_tables places.new assumed.new node_variables.new) }
{
    if s.len() > MOST_BYTES {
        return Err(refuse(Reason::TooLong, 0));
    }
    let head = opened(s).map_err(|reason| refuse(reason, 0))?;
    keep::clear(assumed, head.variables);
    let counts = Counts {
        atoms: head.atoms,
        variables: head.variables,
        limit: head.limit,
        nodes: 0,
        equations: 0,
        freshness: 0,
        protected: VariableSet::empty(),
    };
    fields(s, counts, places, assumed, node_variables)
}
