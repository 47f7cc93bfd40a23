// The equations that wait, in two tables that the caller lends: place i of each is part of one equation, and the top is the last in use. Tables may
// hold anything where nothing waits, so that none is ever cleared. Room for 576 is enough (document 01, "Numbers given back").
//
// An equation that is pushed or read whole has whole rows, whatever the number of atoms in use: so its functions do not take that number, and their
// contracts are for all. Of one that is changed where it lies single images are looked at: there the number says which atoms have one.
#![tactic(auto)]

ghost use Rattle.std.specs.Prelude.{◌≡◌, ◌+◌, ◌≤◌, ◌<◌, length};
ghost use Rattle.permutation.specs.Table.{image, inverted, disagreement};
ghost use Rattle.sets.specs.Bits.{of_list};
ghost use Rattle.stack.specs.Stack.{stack_tables, Pushed, Topped, Started, most_waiting};
ghost use Rattle.stack.specs.InPlace.{left_at, right_at, nodes_at, Renewed, Split, RightSwapped};
ghost use Rattle.problem.specs.Held.{problem_of};
ghost use Rattle.problem.specs.Look.{Standing};

use names::{Atom, MOST_ATOMS, NodeId};
use permutation::Permutation;
use problem::Input;
use rows::Row;
use sets::AtomSet;

// So many equations can wait. That a place is below it each method that is given one asks: a type of places would be taken apart to index.
pub const ROOM: usize = 576;

// Of each equation its number and the nodes of its two sides, and the images of the two sides.
// Two tables and not one of structs: include/cheesetrestle.h has this form (C interface), and lent memory has no other, as there is no heap.
pub type Heads = [[u16; 3]; ROOM];

pub const EMPTY_HEADS: Heads = [[0; 3]; ROOM];

pub type Images = [[Row; 2]; ROOM];

pub const EMPTY_IMAGES: Images = [[rows::EMPTY; 2]; ROOM];

// "Each side is a permutation and a node", and "what comes of an equation keeps its number".
#[derive(Clone, Copy, PartialEq, Eq)]
pub struct Pending {
    pub number: u8,
    pub left: Permutation,
    pub left_node: NodeId,
    pub right: Permutation,
    pub right_node: NodeId,
}

// What stands of an equation beside its rows: its number, and the nodes of its two sides.
#[derive(Clone, Copy, PartialEq, Eq)]
pub struct Nodes {
    pub number: u8,
    pub left: NodeId,
    pub right: NodeId,
}

// What asks or changes one table alone, or only reads, is a function of the tables that it needs: who holds no more can call it.
// The equation above n others. Its number is a byte, kept where there is room for two.
pub fn top(heads: &Heads, images: &Images, n: usize) -> Pending
    requires { n < most_waiting }
    ensures { Topped (stack_tables heads.now images.now) n result }
{
    let head = heads[n];
    let left = rows::load(images[n][0]);
    let right = rows::load(images[n][1]);
    Pending {
        number: (head[0] % 256) as u8,
        left,
        left_node: NodeId(head[1]),
        right,
        right_node: NodeId(head[2]),
    }
}

// What waits at place n, and the images of its sides: read where they lie. The number is a byte, as at top.
pub fn nodes_at(heads: &Heads, n: usize) -> Nodes
    requires { n < most_waiting }
    ensures { result ≡ nodes_at heads.now n }
{
    let h = heads[n];
    Nodes {
        number: (h[0] % 256) as u8,
        left: NodeId(h[1]),
        right: NodeId(h[2]),
    }
}

// Two functions, as left_at and right_at are two definitions: one with the side as a parameter would need a third, and be no plainer where it is called.
pub fn left_image(images: &Images, n: usize, atoms: usize, a: Atom) -> Atom
    requires { (n < most_waiting) × (atoms ≤ 32) }
    ensures { result.0 ≡ image (left_at atoms images.now n) a.0 }
{
    rows::image(&images[n][0], atoms, a)
}

pub fn right_image(images: &Images, n: usize, atoms: usize, a: Atom) -> Atom
    requires { (n < most_waiting) × (atoms ≤ 32) }
    ensures { result.0 ≡ image (right_at atoms images.now n) a.0 }
{
    rows::image(&images[n][1], atoms, a)
}

// The atom that the right side's images send to a.
pub fn right_preimage(images: &Images, n: usize, atoms: usize, a: Atom) -> Atom
    requires { (n < most_waiting) × (atoms ≤ 32) × (a.0 < atoms) }
    ensures { result.0 ≡ image (inverted (right_at atoms images.now n)) a.0 }
{
    rows::preimage(&images[n][1], atoms, a)
}

// The disagreement set of the two sides' images.
pub fn disagreement(images: &Images, n: usize, atoms: usize) -> AtomSet
    requires { (n < most_waiting) × (atoms ≤ 32) }
    ensures { result.0 ≡ of_list 32 (disagreement (left_at atoms images.now n) (right_at atoms images.now n)) }
{
    rows::disagreement(&images[n][0], &images[n][1], atoms)
}

// The right side at place n is put under the swap of a and b.
pub fn swap_right(images: &mut Images, n: usize, a: Atom, b: Atom)
    requires { n < most_waiting }
    ensures { RightSwapped a.0 b.0 n images.old images.new }
{
    let images: &mut [[Row; 2]] = images;
    let pair: &mut [Row] = &mut images[n];
    rows::swap_after(&mut pair[1], a, b);
}

// Other nodes for the equation at place n, under the same images.
pub fn renew(heads: &mut Heads, n: usize, number: u8, left: NodeId, right: NodeId)
    requires { n < most_waiting }
    ensures { Renewed n number left right heads.old heads.new }
{
    let heads: &mut [[u16; 3]] = heads;
    heads[n] = [u16::from(number), left.0, right.0];
}

// The two tables, lent together. Where a table is written it is taken as a slice: so its length is known, which an array behind a reference does not tell.
#[derive(Drop)]
pub struct Stack<'a> {
    pub heads: &'a mut Heads,
    pub images: &'a mut Images,
}

// `same`: of a struct behind &mut it is not known that a field keeps its reference, so each method that changes what is lent says it.
impl<'a> Stack<'a> {
    // One more equation, above the n that wait. Each row is written where it belongs: a pair that is made first and then copied costs a chain of 512
    // nodes 3% more instructions.
    pub fn push(&mut self, n: usize, e: Pending)
        requires { n < most_waiting }
        ensures same { (self.new.heads.ghost_name ≡ self.old.heads.ghost_name) × (self.new.images.ghost_name ≡ self.old.images.ghost_name) }
        ensures pushed { Pushed (stack_tables self.old.heads.now self.old.images.now) n e
            (stack_tables self.new.heads.now self.new.images.now) }
    {
        let left = rows::keep(e.left);
        let right = rows::keep(e.right);
        let heads: &mut [[u16; 3]] = self.heads;
        heads[n] = [u16::from(e.number), e.left_node.0, e.right_node.0];
        let images: &mut [[Row; 2]] = self.images;
        let pair = &mut images[n];
        let pair: &mut [Row] = pair;
        pair[0] = left;
        pair[1] = right;
    }

    pub fn top(&self, n: usize) -> Pending
        requires { n < most_waiting }
        ensures { Topped (stack_tables self.now.heads.now self.now.images.now) n result }
    {
        top(self.heads, self.images, n)
    }

    // The problem's equations, "the file's first on top": so the last is pushed first. count is their number.
    // k is less than 64, so a byte holds it: try_from would bring a branch that is never taken.
    pub fn start(&mut self, input: &Input, count: usize)
        requires { Standing input.now.bytes.now input.now.places.now × (count ≡ length (problem_of input.now.bytes.now).equations) }
        ensures same { (self.new.heads.ghost_name ≡ self.old.heads.ghost_name) × (self.new.images.ghost_name ≡ self.old.images.ghost_name) }
        ensures started { Started (problem_of input.now.bytes.now).equations (stack_tables self.old.heads.now self.old.images.now) count
            (stack_tables self.new.heads.now self.new.images.now) }
    {
        let p = permutation::identity(MOST_ATOMS);
        for n in 0..count {
            let k = count - n - 1;
            let e = input.equation_at(k);
            let pending = Pending {
                number: k as u8,
                left: p,
                left_node: e.left,
                right: p,
                right_node: e.right,
            };
            self.push(n, pending);
        }
    }

    pub fn nodes_at(&self, n: usize) -> Nodes
        requires { n < most_waiting }
        ensures { result ≡ nodes_at self.now.heads.now n }
    {
        nodes_at(self.heads, n)
    }

    pub fn left_image(&self, n: usize, atoms: usize, a: Atom) -> Atom
        requires { (n < most_waiting) × (atoms ≤ 32) }
        ensures { result.0 ≡ image (left_at atoms self.now.images.now n) a.0 }
    {
        left_image(self.images, n, atoms, a)
    }

    pub fn right_image(&self, n: usize, atoms: usize, a: Atom) -> Atom
        requires { (n < most_waiting) × (atoms ≤ 32) }
        ensures { result.0 ≡ image (right_at atoms self.now.images.now n) a.0 }
    {
        right_image(self.images, n, atoms, a)
    }

    pub fn right_preimage(&self, n: usize, atoms: usize, a: Atom) -> Atom
        requires { (n < most_waiting) × (atoms ≤ 32) × (a.0 < atoms) }
        ensures { result.0 ≡ image (inverted (right_at atoms self.now.images.now n)) a.0 }
    {
        right_preimage(self.images, n, atoms, a)
    }

    pub fn disagreement(&self, n: usize, atoms: usize) -> AtomSet
        requires { (n < most_waiting) × (atoms ≤ 32) }
        ensures { result.0 ≡ of_list 32 (disagreement (left_at atoms self.now.images.now n) (right_at atoms self.now.images.now n)) }
    {
        disagreement(self.images, n, atoms)
    }

    pub fn swap_right(&mut self, n: usize, a: Atom, b: Atom)
        requires { n < most_waiting }
        ensures same { (self.new.heads.ghost_name ≡ self.old.heads.ghost_name) × (self.new.images.ghost_name ≡ self.old.images.ghost_name) }
        ensures heads { self.new.heads.now ≡ self.old.heads.now }
        ensures images { RightSwapped a.0 b.0 n self.old.images.now self.new.images.now }
    {
        swap_right(self.images, n, a, b)
    }

    pub fn renew(&mut self, n: usize, number: u8, left: NodeId, right: NodeId)
        requires { n < most_waiting }
        ensures same { (self.new.heads.ghost_name ≡ self.old.heads.ghost_name) × (self.new.images.ghost_name ≡ self.old.images.ghost_name) }
        ensures heads { Renewed n number left right self.old.heads.now self.new.heads.now }
        ensures images { self.new.images.now ≡ self.old.images.now }
    {
        renew(self.heads, n, number, left, right)
    }

    // Two equations for the one at place n, under its images: these nodes stay there, and place n + 1 gets its images for what comes above. It is the
    // only place where rows are copied: what waits and what goes on have the same images from here, and may come to have others.
    pub fn split(&mut self, n: usize, number: u8, left: NodeId, right: NodeId)
        requires { n + 1 < most_waiting }
        ensures same { (self.new.heads.ghost_name ≡ self.old.heads.ghost_name) × (self.new.images.ghost_name ≡ self.old.images.ghost_name) }
        ensures split { Split n number left right (stack_tables self.old.heads.now self.old.images.now)
            (stack_tables self.new.heads.now self.new.images.now) }
    {
        let above = n + 1;
        self.renew(n, number, left, right);
        let images: &mut [[Row; 2]] = self.images;
        images[above] = images[n];
    }
}
