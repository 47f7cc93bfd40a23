// The bindings, in tables that the caller lends: the variables in the order in which they were bound, and by variable the value's node, its images
// and the number of the equation that made the binding. Tables may hold anything where no variable is bound, so that none is ever cleared: which
// variables are bound says a set that is passed and returned by value.
//
// Images are read and written as whole rows, whatever the number of atoms in use. Where one image of a value is wanted, its row is read where it lies.
#![tactic(auto)]

ghost use Rattle.std.specs.Prelude.{◌≡◌, true, false, ℕ, ◌≤◌, ◌<◌};
ghost use Rattle.permutation.specs.Table.{image, identity};
ghost use Rattle.sets.specs.Bits.{member};
ghost use Rattle.bindings.specs.Bindings.{binding_tables, variable_at, node_of, images_of, Keeps, Added, LookedUp};

use names::{Atom, MOST_VARIABLES, NodeId, Variable};
use permutation::Permutation;
use rows::Row;
use sets::VariableSet;

// Three columns: the variables in the order in which they were bound; by variable its value's node; by variable the number of the equation.
// Columns and not a table of structs: include/cheesetrestle.h has this form (C interface), and lent memory has no other, as there is no heap.
pub type Made = [[u16; MOST_VARIABLES]; 3];

pub const EMPTY_MADE: Made = [[0; MOST_VARIABLES]; 3];

const ORDER: usize = 0;

const NODES: usize = 1;

const NUMBERS: usize = 2;

// By variable its value's images.
pub type Values = [Row; MOST_VARIABLES];

pub const EMPTY_VALUES: Values = [rows::EMPTY; MOST_VARIABLES];

// "The binding holds the right side's node and the images acting on it from outside."
#[derive(Clone, Copy, PartialEq, Eq)]
pub struct Value {
    pub images: Permutation,
    pub node: NodeId,
}

// The variable that was bound after i others. Its number is less than a byte holds: try_from would bring a branch that is never taken.
pub fn variable_at(made: &Made, i: usize) -> Variable
    requires { (i < 64) × (variable_at made.now i < 64) }
    ensures { result.0 ≡ variable_at made.now i }
{
    Variable(made[ORDER][i] as u8)
}

// The node of a variable's value.
pub fn node_of(made: &Made, x: Variable) -> NodeId
    requires { x.0 < 64 }
    ensures { result.0 ≡ node_of made.now x.0 }
{
    NodeId(made[NODES][usize::from(x.0)])
}

// Where a variable's value sends an atom from outside: to itself, if it is none of the n in use. The row is read where it lies.
pub fn image_of(values: &Values, n: usize, x: Variable, a: Atom) -> Atom
    requires { (n ≤ 32) × (x.0 < 64) }
    ensures { result.0 ≡ image (images_of n values.now x.0) a.0 }
{
    rows::image(&values[usize::from(x.0)], n, a)
}

// Whether a variable's value is its node as it is: its images send every atom to itself.
pub fn is_plain(values: &Values, x: Variable) -> bool
    requires { x.0 < 64 }
    ensures { result ≡ true → (n : ℕ) → n ≤ 32 → images_of n values.now x.0 ≡ identity n }
{
    rows::is_identity(&values[usize::from(x.0)])
}

// The two tables, lent together to who only reads: so others may read beside him.
// Not compared: two would be the same where what they are lent is.
#[derive(Clone, Copy)]
pub struct Shown<'a> {
    pub made: &'a Made,
    pub values: &'a Values,
}

// What asks one table alone is a function of that table above: who holds no more can ask it.
impl<'a> Shown<'a> {
    // The value of a variable, if it is bound.
    pub fn look_up(&self, bound: VariableSet, x: Variable) -> Option<Value>
        ensures { LookedUp (binding_tables self.now.made.now self.now.values.now) bound.0 x.0 result }
    {
        if !bound.has(x) {
            return None;
        }
        let values = self.values;
        let images = rows::load(values[usize::from(x.0)]);
        let node = node_of(self.made, x);
        Some(Value { images, node })
    }
}

// The two tables, lent together to who adds to them.
#[derive(Drop)]
pub struct Bindings<'a> {
    pub made: &'a mut Made,
    pub values: &'a mut Values,
}

// `same`: of a struct behind &mut it is not known that a field keeps its reference, so each method that changes what is lent says it.
impl<'a> Bindings<'a> {
    // One more binding, after the k that were made: of a variable that is not bound. The set of bound variables comes back with it.
    #[tactic(auto, using(crate::proofs::Laws::keeps_room))]
    pub fn add(
        &mut self,
        k: usize,
        bound: VariableSet,
        x: Variable,
        value: Value,
        number: u8,
    ) -> VariableSet
        requires { Keeps self.old.made.now k bound.0 × (member bound.0 x.0 ≡ false) × (x.0 < 64) }
        ensures same { (self.new.made.ghost_name ≡ self.old.made.ghost_name) × (self.new.values.ghost_name ≡ self.old.values.ghost_name) }
        ensures added { Added (binding_tables self.old.made.now self.old.values.now) k bound.0 x.0 value number
            (binding_tables self.new.made.now self.new.values.now) result.0 }
    {
        let i = usize::from(x.0);
        // Each is taken as a slice: so its length is known where it is written, which an array behind a reference does not tell.
        let order: &mut [u16] = &mut self.made[ORDER];
        order[k] = u16::from(x.0);
        let nodes: &mut [u16] = &mut self.made[NODES];
        nodes[i] = value.node.0;
        let numbers: &mut [u16] = &mut self.made[NUMBERS];
        numbers[i] = u16::from(number);
        let values: &mut [Row] = self.values;
        values[i] = rows::keep(value.images);
        bound.with(x)
    }

    // What they hold, for who only reads.
    pub fn shown(&self) -> Shown<'_>
        ensures { (result.made.now ≡ self.now.made.now) × (result.values.now ≡ self.now.values.now) }
    {
        Shown {
            made: &*self.made,
            values: &*self.values,
        }
    }
}
