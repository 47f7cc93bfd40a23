// Going through the parts of one node with a set of atoms, by 003's freshness rules: of each node the set of atoms that were seen there is kept, all
// atoms of a set are passed on to a node's parts together, and no pair of atom and node is looked at twice.
#![tactic(auto)]

ghost use Rattle.std.specs.Prelude.{◌≡◌, true, ℕ, ◌/◌, ◌≤◌, ◌<◌, length, get_or};
ghost use Rattle.permutation.specs.Swaps.{Within, swaps_in, act, swapped};
ghost use Rattle.problem.specs.Held.{problem_of, node_word};
ghost use Rattle.problem.specs.Look.{Standing, NodeStands, Suspended, form_now, bare_in, own_swaps};
ghost use Rattle.visit.specs.Visited.{Marked, added, sent_into, Visited, Settled};
ghost use Rattle.visit.specs.Parts.{InWord, Late, with_late, SuspendedAt, Came, PartsVisited, InTable, SwapsAsked};

use demands::Sets;
use names::{Atom, MOST_NODES, NodeId, Variable};
use problem::{Form, Input, Places, look};
use sets::{AtomSet, Set};

// Nodes as bits, 64 to a word: the suspensions with swaps that atoms came to. They wait until all parts are visited, since their swaps stand in the input.
// A bit is a node's number, and that is the format's.
const WORDS: usize = MOST_NODES / 64;

type LateNodes = [u64; WORDS];

// The set in row i.
pub fn atoms_at(rows: &[u32], i: usize) -> AtomSet
    requires { i < length rows.now }
    ensures { result.0 ≡ get_or rows.now i 0 }
{
    Set(rows[i])
}

// More atoms in row i.
#[tactic(auto, unfolding(crate::specs::Visited::added))]
pub fn add_atoms(rows: &mut [u32], i: usize, more: AtomSet)
    requires { i < length rows.old }
    ensures { rows.new ≡ added rows.old i more.0 }
{
    let r = Set(rows[i]).union(more);
    rows[i] = r.0;
}

// Each atom of the set under one swap.
fn exchange(atoms: AtomSet, a: Atom, b: Atom) -> AtomSet
    requires { (a.0 < 32) × (b.0 < 32) }
    ensures { result.0 ≡ sent_into 32 (swapped a.0 b.0) atoms.0 }
{
    if atoms.has(a) {
        if atoms.has(b) {
            return atoms;
        }
        return atoms.without(a).with(b);
    }
    if atoms.has(b) {
        return atoms.without(b).with(a);
    }
    atoms
}

// The atoms that a suspension's own swaps send into the set: the leftmost swap is undone first.
fn through_swaps(swaps: &[u8], atoms: AtomSet) -> AtomSet
    requires { Within 32 (swaps_in swaps.now) }
    ensures { result.0 ≡ sent_into 32 (act (swaps_in swaps.now)) atoms.0 }
{
    let mut r = atoms;
    for pair in swaps.chunks_exact(2) {
        r = exchange(r, Atom(pair[0]), Atom(pair[1]));
    }
    r
}

// The atoms are asked of a suspension's variable: each as the atom that the suspension's own swaps send to it.
fn ask(input: &Input, node: NodeId, x: Variable, atoms: AtomSet, on_variables: &mut [u32])
    requires { NodeStands input.now.bytes.now input.now.places.now node.0 × Suspended (form_now input.now.bytes.now node.0)
        × Within 32 (own_swaps (form_now input.now.bytes.now node.0)) × (x.0 < length on_variables.old) }
    ensures { on_variables.new
        ≡ added on_variables.old x.0 (sent_into 32 (act (own_swaps (form_now input.now.bytes.now node.0))) atoms.0) }
{
    let swaps = input.swaps_of(node);
    let sent = through_swaps(swaps, atoms);
    add_atoms(on_variables, usize::from(x.0), sent);
}

// The atoms that were seen at a suspension are asked of its variable.
fn ask_at(input: &Input, node: NodeId, seen: &[u32], on_variables: &mut [u32])
    requires there { Standing input.now.bytes.now input.now.places.now × SuspendedAt (problem_of input.now.bytes.now).nodes node.0 }
    requires long { (512 ≤ length seen.now) × (64 ≤ length on_variables.old) }
    ensures { SwapsAsked (problem_of input.now.bytes.now) seen.now (λ n. n ≡ node.0)
        on_variables.old on_variables.new }
{
    let form = input.form_of(node);
    let Form::Suspension(x) = form else {
        return;
    };
    let atoms = atoms_at(seen, usize::from(node.0));
    ask(input, node, x, atoms, on_variables);
}

// The same for each node of a word, of nodes from 64 * i on. Bits of nodes and no Set: the names in a Set are atoms or variables.
// The casts: no From makes a usize of a u32, and n is below 512, so that a try_from would bring a branch that is never taken.
fn ask_word(input: &Input, i: usize, word: u64, seen: &[u32], on_variables: &mut [u32])
    requires there { Standing input.now.bytes.now input.now.places.now × ((n : ℕ) → InWord i word n → SuspendedAt (problem_of input.now.bytes.now).nodes n) }
    requires long { (512 ≤ length seen.now) × (64 ≤ length on_variables.old) }
    ensures { SwapsAsked (problem_of input.now.bytes.now) seen.now (InWord i word)
        on_variables.old on_variables.new }
{
    let mut rest = word;
    while rest != 0 {
        let n = i * 64 + u64::trailing_zeros(rest) as usize;
        ask_at(input, NodeId(n as u16), seen, on_variables);
        rest &= rest - 1;
    }
}

// The same for each node of some words.
fn ask_words(input: &Input, late: &[u64], seen: &[u32], on_variables: &mut [u32])
    requires there { Standing input.now.bytes.now input.now.places.now × ((n : ℕ) → Late late.now n → SuspendedAt (problem_of input.now.bytes.now).nodes n) }
    requires long { (512 ≤ length seen.now) × (64 ≤ length on_variables.old) }
    ensures { SwapsAsked (problem_of input.now.bytes.now) seen.now (Late late.now)
        on_variables.old on_variables.new }
{
    for (i, word) in late.iter().enumerate() {
        ask_word(input, i, *word, seen, on_variables);
    }
}

// Whether no node waits. The words are joined with no test between them.
fn none_waits(late: &[u64]) -> bool
    ensures { result ≡ true → (n : ℕ) → Late late.now n → ⊥ }
{
    let mut all: u64 = 0;
    for word in late {
        all |= *word;
    }
    all == 0
}

// The same for all nodes that wait. The words come as an array: so nobody who calls has to show how many there are.
fn ask_late(input: &Input, late: &LateNodes, seen: &[u32], on_variables: &mut [u32])
    requires there { Standing input.now.bytes.now input.now.places.now × ((n : ℕ) → Late late.now n → SuspendedAt (problem_of input.now.bytes.now).nodes n) }
    requires long { (512 ≤ length seen.now) × (64 ≤ length on_variables.old) }
    ensures { SwapsAsked (problem_of input.now.bytes.now) seen.now (Late late.now)
        on_variables.old on_variables.new }
{
    if none_waits(late) {
        return;
    }
    ask_words(input, late, seen, on_variables);
}

// One node more waits.
fn wait(late: &mut [u64], node: u16)
    requires { node / 64 < length late.old }
    ensures { late.new ≡ with_late late.old node }
{
    late[usize::from(node / 64)] |= 1u64 << (node % 64);
}

// Atoms come to a suspension. Without swaps they are asked of its variable as they are; else the node waits.
fn come(
    places: &Places,
    node: u16,
    x: Variable,
    atoms: AtomSet,
    on_variables: &mut [u32],
    late: &mut [u64],
)
    requires { (node < 512) × (node / 64 < length late.old) × (x.0 < length on_variables.old) }
    ensures { Came (bare_in (node_word places.now node)) node x.0 atoms.0
        on_variables.old late.old on_variables.new late.new }
{
    match look::bare_at(places, NodeId(node)) {
        Some(_) => add_atoms(on_variables, usize::from(x.0), atoms),
        None => wait(late, node),
    }
}

// "Freshness is judged part by part, a compound term by its parts": marks the atoms at the node and what 003's rules lead to within its parts, whose numbers
// are lower. Atoms that come to a variable are left there. Of a pair the lower part comes first: it is at least two numbers down, and the other one is the
// last call, as every single part is. What is handed down are numbers and whole tables, no slice and no struct: so the compiler makes the last call a jump,
// and calls are at most 256 deep. Where both parts are one node it is visited once: a second visit would find nothing new.
fn parts(
    places: &Places,
    atoms: u32,
    node: u16,
    seen: &mut Sets,
    on_variables: &mut Sets,
    late: &mut LateNodes,
)
    requires { InTable places.now node }
    ensures { (t : InTable places.now node) → PartsVisited (problem_of t.input).nodes atoms node
        (Marked (problem_of t.input) seen.old on_variables.old)
        (Marked (problem_of t.input) seen.new on_variables.new) late.old late.new }
{
    let n = usize::from(node);
    let new = Set(atoms).minus(atoms_at(seen, n));
    if new.is_empty() {
        return;
    }
    add_atoms(seen, n, new);
    let form = look::form_at(places, NodeId(node));
    match form {
        Form::Unit => return,
        Form::Atom(a) => return,
        Form::Abstraction(a, m) => {
            let rest = new.without(a);
            parts(places, rest.0, m.0, seen, on_variables, late);
            return;
        }
        Form::Pair(l, r) => {
            if l == r {
                parts(places, new.0, r.0, seen, on_variables, late);
                return;
            }
            if l < r {
                parts(places, new.0, l.0, seen, on_variables, late);
                parts(places, new.0, r.0, seen, on_variables, late);
                return;
            }
            parts(places, new.0, r.0, seen, on_variables, late);
            parts(places, new.0, l.0, seen, on_variables, late);
            return;
        }
        Form::Application(f, m) => {
            parts(places, new.0, m.0, seen, on_variables, late);
            return;
        }
        Form::Suspension(x) => {
            come(places, node, x, new, on_variables, late);
            return;
        }
    }
}

// Visits the atoms at the node: its parts, and then the suspensions with swaps that they came to. Of these all atoms seen there are asked: those that were
// seen before were asked before.
pub fn visit(input: &Input, atoms: AtomSet, node: NodeId, seen: &mut Sets, on_variables: &mut Sets)
    requires there { Standing input.now.bytes.now input.now.places.now × (node.0 < length (problem_of input.now.bytes.now).nodes) }
    requires settled { Settled (problem_of input.now.bytes.now).nodes (Marked (problem_of input.now.bytes.now) seen.old on_variables.old) }
    ensures { Visited (problem_of input.now.bytes.now).nodes atoms.0 node.0
        (Marked (problem_of input.now.bytes.now) seen.old on_variables.old)
        (Marked (problem_of input.now.bytes.now) seen.new on_variables.new) }
{
    let mut late: LateNodes = [0; WORDS];
    parts(input.places, atoms.0, node.0, seen, on_variables, &mut late);
    ask_late(input, &late, seen, on_variables);
}
