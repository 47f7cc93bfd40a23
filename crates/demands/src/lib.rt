// The demands that a run raises, as sets in tables that the caller lends: for each node and for each variable the atoms that must be fresh for it, and
// the number of the equation that asked for each first. Only rows in use are cleared, and a number counts only where its atom is in the set, so the
// table of numbers is never cleared.
#![tactic(auto)]

ghost use Rattle.std.specs.Prelude.{◌≡◌, false, ℕ, ◌≤◌, ◌<◌, length, get_or};
ghost use Rattle.permutation.specs.Store.{table};
ghost use Rattle.sets.specs.Bits.{member, members};
ghost use Rattle.demands.specs.Demands.{line, line_marked, line_marked_all, sheet, emptied, demands_cleared};
ghost use Rattle.demands.specs.Demands.{asked_of_node, asked_of_variable, NodeAsked, VariableAsked};
ghost use Rattle.demands.specs.Demands.{NodeRaised, SideRaised, VariableRaised};

use names::{Atom, MOST_ATOMS, MOST_NODES, MOST_VARIABLES, NodeId, Variable};
use permutation::Permutation;
use sets::{AtomSet, Set};

// By node, or by variable, the atoms that must be fresh for it.
pub type Sets = [u32; MOST_NODES];

// Two columns: the sets by node, and those by variable.
// Columns and not a table of structs: include/cheesetrestle.h has this form (C interface), and lent memory has no other, as there is no heap.
pub type Asked = [Sets; 2];

pub const EMPTY_ASKED: Asked = [[0; MOST_NODES]; 2];

// For each atom of a set the number of the equation that asked for it first.
pub type Numbers = [u8; MOST_ATOMS];

// The rows of the nodes, then those of the variables.
const ROWS: usize = MOST_NODES + MOST_VARIABLES;

pub type Firsts = [Numbers; ROWS];

pub const EMPTY_FIRSTS: Firsts = [[0; MOST_ATOMS]; ROWS];

// The column of the nodes' sets, and that of the variables'.
pub const NODES: usize = 0;

pub const VARIABLES: usize = 1;

// n beside the sets: lent as a part by clear, the loan within a loan met no clause of fill's.
#[tactic(auto, unfolding(crate::specs::Demands::emptied))]
fn empty_rows(sets: &mut [u32], n: usize)
    requires { n ≤ length sets.old }
    ensures { sets.new ≡ emptied n sets.old }
{
    sets[..n].fill(0);
}

// Nothing is demanded yet, of so many nodes and variables.
pub fn clear(asked: &mut Asked, nodes: usize, variables: usize)
    requires { (nodes ≤ 512) × (variables ≤ 64) }
    ensures { asked.new ≡ demands_cleared nodes variables asked.old }
{
    empty_rows(&mut asked[NODES], nodes);
    empty_rows(&mut asked[VARIABLES], variables);
}

// The atoms asked of a node, and of a variable. One for each kind of name: a trait of the two would have the column and the index for members, and be
// no plainer.
pub fn of_node(asked: &Asked, n: NodeId) -> AtomSet
    requires { n.0 < 512 }
    ensures { result.0 ≡ asked_of_node asked.now n.0 }
{
    Set(asked[NODES][usize::from(n.0)])
}

pub fn of_variable(asked: &Asked, x: Variable) -> AtomSet
    ensures { result.0 ≡ asked_of_variable asked.now x.0 }
{
    Set(asked[VARIABLES][usize::from(x.0)])
}

// Whether one of the first n sets has an atom. They are joined with no test between them, so that many are taken at once. n beside, as above.
pub fn any(sets: &[u32], n: usize) -> bool
    requires { n ≤ length sets.now }
    ensures { result ≡ false → (i : ℕ) → i < n → (a : ℕ) → member (get_or sets.now i 0) a ≡ false }
{
    let mut all = AtomSet::empty();
    for atoms in &sets[..n] {
        all = all.union(Set(*atoms));
    }
    !all.is_empty()
}

// Whether atoms are asked of one of the first n nodes.
pub fn any_of_nodes(asked: &Asked, n: usize) -> bool
    requires { n ≤ 512 }
    ensures { result ≡ false → (i : ℕ) → i < n → (a : ℕ) → member (asked_of_node asked.now i) a ≡ false }
{
    any(&asked[NODES], n)
}

// One atom more is asked of a node, which no equation demanded; and a set of atoms of a variable. The column that is written is taken as a slice: so its
// length is known, which an array behind a reference does not tell.
pub fn ask_of_node(asked: &mut Asked, n: NodeId, a: Atom)
    requires { (n.0 < 512) × (a.0 < 32) }
    ensures { NodeAsked n.0 a.0 asked.old asked.new }
{
    let atoms = of_node(asked, n).with(a);
    let sets: &mut [u32] = &mut asked[NODES];
    sets[usize::from(n.0)] = atoms.0;
}

pub fn ask_of_variable(asked: &mut Asked, x: Variable, more: AtomSet)
    ensures { VariableAsked x.0 more.0 asked.old asked.new }
{
    let atoms = of_variable(asked, x).union(more);
    let sets: &mut [u32] = &mut asked[VARIABLES];
    sets[usize::from(x.0)] = atoms.0;
}

// Equation `number` asks for an atom in row i. Only the first equation that asks is kept: in the row's own numbers, beside the sets of its column.
fn mark(sets: &mut [u32], numbers: &mut [u8], i: usize, a: Atom, number: u8)
    requires { (i < length sets.old) × (a.0 < 32) × (length numbers.old ≡ 32) }
    ensures { line sets.new numbers.new
        ≡ line_marked i number a.0 (line sets.old numbers.old) }
{
    let asked = Set(sets[i]);
    if asked.has(a) {
        return;
    }
    let more = asked.with(a);
    sets[i] = more.0;
    numbers[usize::from(a.0)] = number;
}

// The atoms come one by one from below, as members lists them: a set has no iterator, and one for this loop would be no plainer.
fn mark_all(sets: &mut [u32], numbers: &mut [u8], i: usize, atoms: AtomSet, number: u8)
    requires { (i < length sets.old) × (length numbers.old ≡ 32) }
    ensures { line sets.new numbers.new
        ≡ line_marked_all i number (members 32 atoms.0) (line sets.old numbers.old) }
{
    let mut rest = atoms.minus(Set(sets[i]));
    while !rest.is_empty() {
        mark(sets, numbers, i, rest.lowest(), number);
        rest = rest.without_lowest();
    }
}

// The two tables, lent together.
#[derive(Drop)]
pub struct Demands<'a> {
    pub asked: &'a mut Asked,
    pub firsts: &'a mut Firsts,
}

// `same`: of a struct behind &mut it is not known that a field keeps its reference, so each method that changes what is lent says it.
impl<'a> Demands<'a> {
    // "a is demanded fresh for t": of the side's node it is the atom that the side's images send to a.
    pub fn raise_side(&mut self, a: Atom, p: Permutation, atoms: usize, node: NodeId, number: u8)
        requires { (atoms ≤ 32) × (a.0 < atoms) × (node.0 < 512) }
        ensures same { (self.new.asked.ghost_name ≡ self.old.asked.ghost_name) × (self.new.firsts.ghost_name ≡ self.old.firsts.ghost_name) }
        ensures raised { SideRaised a.0 (table atoms p) node.0 number
            (sheet self.old.asked.now self.old.firsts.now) (sheet self.new.asked.now self.new.firsts.now) }
    {
        let b = rows::preimage(&rows::keep(p), atoms, a);
        self.raise_node(b, node, number);
    }

    // The same where that atom is known: the one that a side's images send to the atom demanded.
    pub fn raise_node(&mut self, b: Atom, node: NodeId, number: u8)
        requires { (b.0 < 32) × (node.0 < 512) }
        ensures same { (self.new.asked.ghost_name ≡ self.old.asked.ghost_name) × (self.new.firsts.ghost_name ≡ self.old.firsts.ghost_name) }
        ensures raised { NodeRaised b.0 node.0 number
            (sheet self.old.asked.now self.old.firsts.now) (sheet self.new.asked.now self.new.firsts.now) }
    {
        let i = usize::from(node.0);
        let asked = &mut *self.asked;
        let firsts = &mut *self.firsts;
        mark(&mut asked[NODES], &mut firsts[i], i, b, number);
    }

    // "each atom of the disagreement set is demanded fresh for X"
    pub fn raise_variable(&mut self, atoms: AtomSet, x: Variable, number: u8)
        requires { x.0 < 64 }
        ensures same { (self.new.asked.ghost_name ≡ self.old.asked.ghost_name) × (self.new.firsts.ghost_name ≡ self.old.firsts.ghost_name) }
        ensures raised { VariableRaised atoms.0 x.0 number
            (sheet self.old.asked.now self.old.firsts.now) (sheet self.new.asked.now self.new.firsts.now) }
    {
        let i = usize::from(x.0);
        let asked = &mut *self.asked;
        let firsts = &mut *self.firsts;
        mark_all(
            &mut asked[VARIABLES],
            &mut firsts[MOST_NODES + i],
            i,
            atoms,
            number,
        );
    }
}
