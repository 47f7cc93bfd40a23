// Which rule fits two resolved sides (document 01, "The run": "Then one step, the first that fits"). Nothing is changed here: what is to be done is told,
// with the names that it takes.
#![tactic(auto)]

ghost use Rattle.std.specs.Prelude.{◌≡◌, Bool, ◌≤◌, ◌<◌};
ghost use Rattle.permutation.specs.Store.{table};
ghost use Rattle.permutation.specs.Table.{image};
ghost use Rattle.sets.specs.Bits.{member};
ghost use Rattle.side.specs.Side.{Compound};
ghost use Rattle.rule.specs.Rule.{atoms_act, abstractions_act, applications_act, Compounds, unless_inside, unless_protected, either_act, OccursTold, Decided};

use names::{Atom, NodeId, Variable};
use occurs::Known;
use permutation::Permutation;
use problem::Form;
use sets::VariableSet;
use side::Side;

// What a step does: it is done, it refuses, it goes on with parts of both sides, it demands, or it binds.
// The refusals are acts among the others: `ruled` and `decided_once` say that of all of these one fits and no other.
#[derive(Clone, Copy, PartialEq, Eq)]
pub enum Act {
    Done,
    Clash,
    Inside,
    Protection,
    Part(NodeId, NodeId),
    Parts(NodeId, NodeId, NodeId, NodeId),
    Renamed(Atom, NodeId, Atom, NodeId),
    Same(Variable),
    BindLeft(Variable),
    BindRight(Variable),
}

// "different atoms .. : 9", "the same atom: done".
fn two_atoms(p: Permutation, a: Atom, q: Permutation, b: Atom, atoms: usize) -> Act
    requires { atoms ≤ 32 }
    ensures { result ≡ atoms_act (image (table atoms p) a.0) (image (table atoms q) b.0) }
{
    let x = permutation::image(p, atoms, a);
    let y = permutation::image(q, atoms, b);
    if x == y {
        return Act::Done;
    }
    Act::Clash
}

// "with a equal to b, s against t; else s against t under the swap of a and b, and a is demanded fresh for t."
fn two_abstractions(
    p: Permutation,
    a: Atom,
    m: NodeId,
    q: Permutation,
    b: Atom,
    n: NodeId,
    atoms: usize,
) -> Act
    requires { atoms ≤ 32 }
    ensures { result ≡ abstractions_act (image (table atoms p) a.0) m (image (table atoms q) b.0) n }
{
    let x = permutation::image(p, atoms, a);
    let y = permutation::image(q, atoms, b);
    if x == y {
        return Act::Part(m, n);
    }
    Act::Renamed(x, m, y, n)
}

// "different symbols: 9", "Applications: the two arguments".
// The quick run's applications_meet asks the same, but gives no Act: seven of its ten do not come there.
fn two_applications(f: u16, m: NodeId, h: u16, n: NodeId) -> Act
    ensures { result ≡ applications_act f m h n }
{
    if f == h {
        return Act::Part(m, n);
    }
    Act::Clash
}

// Two sides that are no suspensions: "Different forms .. : 9".
fn compounds(left: Side, right: Side, atoms: usize) -> Act
    requires { (atoms ≤ 32) × Compound left.form }
    ensures { Compounds (table atoms left.images) (table atoms right.images) left.form right.form result }
{
    let p = left.images;
    let q = right.images;
    match (left.form, right.form) {
        (Form::Unit, Form::Unit) => Act::Done,
        (Form::Atom(a), Form::Atom(b)) => two_atoms(p, a, q, b, atoms),
        (Form::Abstraction(a, m), Form::Abstraction(b, n)) => two_abstractions(
            p, a, m, q, b, n, atoms,
        ),
        (Form::Pair(l, m), Form::Pair(k, n)) => Act::Parts(l, m, k, n),
        (Form::Application(f, m), Form::Application(h, n)) => two_applications(f, m, h, n),
        _ => Act::Clash,
    }
}

// "if X occurs in the right side, looked at through all bindings, 10".
fn unless_inside(known: &Known, x: Variable, other: NodeId, act: Act) -> Act
    requires { other.0 < 512 }
    ensures { (o : Bool)
        → OccursTold known.now.bound.0 known.now.made.now known.now.node_variables.now other.0 x.0 o
        → result ≡ unless_inside o act }
{
    if known.occurs(x, other) {
        return Act::Inside;
    }
    act
}

// "an unprotected X under P", and "Any other suspension: 11".
fn one_variable(known: &Known, protected: VariableSet, x: Variable, other: NodeId, act: Act) -> Act
    requires { other.0 < 512 }
    ensures { (o : Bool)
        → OccursTold known.now.bound.0 known.now.made.now known.now.node_variables.now other.0 x.0 o
        → result ≡ unless_protected (member protected.0 x.0) o act }
{
    if protected.has(x) {
        return Act::Protection;
    }
    unless_inside(known, x, other, act)
}

// Two suspensions: "of one variable X", or the left variable is bound if it is not protected, else the right one.
fn two_variables(
    known: &Known,
    protected: VariableSet,
    x: Variable,
    y: Variable,
    left: NodeId,
    right: NodeId,
) -> Act
    requires { (left.0 < 512) × (right.0 < 512) }
    ensures { (i j : Bool)
        → OccursTold known.now.bound.0 known.now.made.now known.now.node_variables.now left.0 y.0 i
        → OccursTold known.now.bound.0 known.now.made.now known.now.node_variables.now right.0 x.0 j
        → result ≡ either_act (member protected.0) x y i j }
{
    if x == y {
        return Act::Same(x);
    }
    if protected.has(x) {
        return one_variable(known, protected, y, left, Act::BindRight(y));
    }
    unless_inside(known, x, right, Act::BindLeft(x))
}

// "Then one step, the first that fits".
pub fn decide(known: &Known, atoms: usize, protected: VariableSet, left: Side, right: Side) -> Act
    requires { (atoms ≤ 32) × (left.node.0 < 512) × (right.node.0 < 512) }
    ensures { Decided atoms (member protected.0) known.now.bound.0 known.now.made.now known.now.node_variables.now left right result }
{
    match (left.form, right.form) {
        (Form::Suspension(x), Form::Suspension(y)) => two_variables(
            known, protected, x, y, left.node, right.node,
        ),
        (Form::Suspension(x), _) => one_variable(known, protected, x, right.node, Act::BindLeft(x)),
        (_, Form::Suspension(y)) => one_variable(known, protected, y, left.node, Act::BindRight(y)),
        _ => compounds(left, right, atoms),
    }
}
