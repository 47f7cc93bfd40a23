// A problem as its bytes say it. The reader goes once through the bytes and keeps no copy of them: of each node, equation and freshness field it leaves
// the first eight bytes in a table that the caller lends, as one number, and reads from that what stands there where it is wanted. A suspension's swaps
// stay in the input.
#![tactic(auto)]

ghost use Rattle.field.specs.Field.{Bytes};

use names::{Atom, MOST_NODES, MOST_VARIABLES, NodeId, Variable};
use sets::VariableSet;

pub mod keep; // keep.rt: what the reader leaves in the tables
pub mod look; // look.rt: nodes, equations and freshness fields, from the bytes

// How many equations and freshness fields there can be (document 01, "The problem in bytes"); names has the same of nodes.
pub const MOST_EQUATIONS: usize = 64;

pub const MOST_FRESHNESS: usize = 64;

// The equations stand behind the nodes, and the freshness fields behind the equations.
pub const EQUATIONS: usize = MOST_NODES;

pub const FRESHNESS: usize = EQUATIONS + MOST_EQUATIONS;

const FIELDS: usize = FRESHNESS + MOST_FRESHNESS;

// Of each field its first eight bytes as one number (field::word); of a suspension the last two are its offset.
// A column and no table of structs: include/cheesetrestle.h has this form, and lent memory has no other (no heap). The nodes' numbers are the format's.
pub type Places = [u64; FIELDS];

pub const EMPTY_PLACES: Places = [0; FIELDS];

// An input that was read: its bytes, and the table that says what stands where. Everything after the reader looks at the two together (`look`).
// Not compared: two inputs would be the same where their bytes lie in one place, and that is not what == asks.
// Standing is no part of the type: form_of, bare, swaps_of, equation_at, freshness_at, which docs/PROVED.md names, ask for one node or field alone.
// A type that says it of all would ask more of who calls them. A type of its own was tried: Standing has more than one proof, as a field can stand in two
// places alike, and a ghost field takes a fact that has one. An input with its atoms as one value would add a word to each path in thirty contracts.
// Two lifetimes: what is handed back as a part of the input (`swaps_of`) may outlive the loan of the table.
#[derive(Clone, Copy)]
pub struct Input<'a, 't> {
    pub bytes: &'a [u8],
    pub places: &'t Places,
    ghost are_bytes: { Bytes bytes.now },
}

// By variable the atoms that are assumed fresh for it.
pub type Assumed = [u32; MOST_VARIABLES];

pub const EMPTY_ASSUMED: Assumed = [0; MOST_VARIABLES];

// A node's form. A suspension's swaps stay in the bytes: `Input::swaps_of` hands them back as a part of the input.
#[derive(Clone, Copy, PartialEq, Eq)]
pub enum Form {
    Unit,
    Atom(Atom),
    Abstraction(Atom, NodeId),
    Pair(NodeId, NodeId),
    Application(u16, NodeId),
    Suspension(Variable),
}

// A problem's numbers. Its fields stay in the input, and the tables say where.
#[derive(Clone, Copy, PartialEq, Eq)]
pub struct Counts {
    pub atoms: u8,
    pub variables: u8,
    pub limit: u32,
    pub nodes: u16,
    pub equations: u8,
    pub freshness: u8,
    pub protected: VariableSet,
}
