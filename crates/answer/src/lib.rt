// The answer in bytes: 4E with the steps, 40 for each binding in the order made, 41 for each fact by variable and then atom. Its length is known before
// a byte is written, so that an output that is too short stays as it was.
#![tactic(auto)]

ghost use Rattle.std.specs.Prelude.{◌≡◌, [], ◌∷◌, ℕ, ◌+◌, ◌≤◌, ◌<◌, length};
ghost use Rattle.field.specs.Field.{bytes2};
ghost use Rattle.bindings.specs.Bindings.{binding_tables, images_of, binding_at, bindings_of, Keeps};
ghost use Rattle.demands.specs.Demands.{asked_of_variables};
ghost use Rattle.run.specs.Answer.{binding_bytes, fact_bytes, answer_bytes, written};
ghost use Rattle.numbers.specs.Numbers.{result_of};
ghost use Rattle.answer.specs.Written.{Wrote};
ghost use Rattle.answer.specs.Fields.{steps_field, binding_field, fact_field};
ghost use Rattle.answer.specs.Facts.{fact_set, facts_in, fact_bytes_of};

use bindings::Shown;
use demands::Asked;
use names::{Atom, Variable};
use numbers::{Reason, Solved};
use sets::{AtomSet, VariableSet};

// How long the fields of an answer are (specs/Fields.antt): that of the steps, that of a binding before its images, that of a fact.
const STEPS: usize = 7;

const BINDING: usize = 6;

const FACT: usize = 5;

// The lent output, and the index at which the next byte is put.
#[derive(Drop)]
struct Writer<'a> {
    output: &'a mut [u8],
    at: usize,
}

// Where a number is cast to a smaller type below it is less than that type holds, as the contracts ask: `try_from` would bring a branch that is never taken.
// `atoms` and `variables` are a usize though they are cast so: a u8 would ask more of who calls (write).
// `same`: of a struct behind &mut it is not known that a field keeps its reference, so each method says it.
impl<'a> Writer<'a> {
    fn put(&mut self, b: u8)
        requires { self.old.at < length self.old.output.now }
        ensures same { self.new.output.ghost_name ≡ self.old.output.ghost_name }
        ensures wrote { Wrote self.old.output.now self.old.at (b ∷ []) self.new.at self.new.output.now }
    {
        self.output[self.at] = b;
        self.at += 1;
    }

    // All of the bytes, in one piece.
    fn put_all(&mut self, bytes: &[u8])
        requires { self.old.at + length bytes.now ≤ length self.old.output.now }
        ensures same { self.new.output.ghost_name ≡ self.old.output.ghost_name }
        ensures wrote { Wrote self.old.output.now self.old.at bytes.now self.new.at self.new.output.now }
    {
        let end = self.at + bytes.len();
        self.output[self.at..end].copy_from_slice(bytes);
        self.at = end;
    }

    fn front(&mut self, tag: u8, n: u16)
        requires { self.old.at + 3 ≤ length self.old.output.now }
        ensures same { self.new.output.ghost_name ≡ self.old.output.ghost_name }
        ensures wrote { Wrote self.old.output.now self.old.at (tag ∷ bytes2 n) self.new.at self.new.output.now }
    {
        self.put(tag);
        self.put_all(&n.to_be_bytes());
    }

    fn steps(&mut self, steps: u32)
        requires { self.old.at + 7 ≤ length self.old.output.now }
        ensures same { self.new.output.ghost_name ≡ self.old.output.ghost_name }
        ensures wrote { Wrote self.old.output.now self.old.at (steps_field steps) self.new.at self.new.output.now }
    {
        self.front(0x4e, 4);
        self.put_all(&steps.to_be_bytes());
    }

    // The images of x's value, one at a time: its row is read where it lies.
    fn images(&mut self, bindings: &Shown, x: Variable, n: usize)
        requires { (n ≤ 32) × (x.0 < 64) × (self.old.at + n ≤ length self.old.output.now) }
        ensures same { self.new.output.ghost_name ≡ self.old.output.ghost_name }
        ensures wrote { Wrote self.old.output.now self.old.at (images_of n bindings.now.values.now x.0) self.new.at self.new.output.now }
    {
        for i in 0..n {
            let a = bindings::image_of(bindings.values, n, x, Atom(i as u8));
            self.put(a.0);
        }
    }

    fn binding(&mut self, bindings: &Shown, x: Variable, n: usize)
        requires { (n ≤ 32) × (x.0 < 64) × (self.old.at + (6 + n) ≤ length self.old.output.now) }
        ensures same { self.new.output.ghost_name ≡ self.old.output.ghost_name }
        ensures wrote { Wrote self.old.output.now self.old.at (binding_field (binding_at n (binding_tables bindings.now.made.now bindings.now.values.now) x.0))
            self.new.at self.new.output.now }
    {
        let node = bindings::node_of(bindings.made, x);
        self.front(0x40, 3 + n as u16);
        self.put(x.0);
        self.put_all(&node.0.to_be_bytes());
        self.images(bindings, x, n);
    }

    fn bindings(&mut self, bindings: &Shown, k: usize, atoms: usize)
        requires { ((bound : ℕ) × Keeps bindings.now.made.now k bound) × (atoms ≤ 32)
            × (self.old.at + length (binding_bytes (bindings_of atoms (binding_tables bindings.now.made.now bindings.now.values.now) k))
            ≤ length self.old.output.now) }
        ensures same { self.new.output.ghost_name ≡ self.old.output.ghost_name }
        ensures wrote { Wrote self.old.output.now self.old.at
            (binding_bytes (bindings_of atoms (binding_tables bindings.now.made.now bindings.now.values.now) k))
            self.new.at self.new.output.now }
    {
        for i in 0..k {
            let x = bindings::variable_at(bindings.made, i);
            self.binding(bindings, x, atoms);
        }
    }

    fn fact(&mut self, a: Atom, x: Variable)
        requires { self.old.at + 5 ≤ length self.old.output.now }
        ensures same { self.new.output.ghost_name ≡ self.old.output.ghost_name }
        ensures wrote { Wrote self.old.output.now self.old.at (fact_field (a.0, x.0)) self.new.at self.new.output.now }
    {
        self.front(0x41, 2);
        self.put_all(&[a.0, x.0]);
    }

    // From the lowest atom on, as long as one is left: a set is no range, and sets has no iterator.
    fn facts_of(&mut self, atoms: AtomSet, x: Variable)
        requires { self.old.at + length (fact_bytes_of x.0 atoms.0) ≤ length self.old.output.now }
        ensures same { self.new.output.ghost_name ≡ self.old.output.ghost_name }
        ensures wrote { Wrote self.old.output.now self.old.at (fact_bytes_of x.0 atoms.0) self.new.at self.new.output.now }
    {
        let mut rest = atoms;
        while !rest.is_empty() {
            self.fact(rest.lowest(), x);
            rest = rest.without_lowest();
        }
    }

    fn facts(&mut self, asked: &Asked, bound: VariableSet, atoms: usize, variables: usize)
        requires { (variables ≤ 64) × (atoms ≤ 32)
            × (self.old.at + length (fact_bytes (facts_in atoms variables bound.0 (asked_of_variables asked.now))) ≤ length self.old.output.now) }
        ensures same { self.new.output.ghost_name ≡ self.old.output.ghost_name }
        ensures wrote { Wrote self.old.output.now self.old.at (fact_bytes (facts_in atoms variables bound.0 (asked_of_variables asked.now)))
            self.new.at self.new.output.now }
    {
        for x in 0..variables {
            let variable = Variable(x as u8);
            let facts = fact_set(asked, bound, variable, atoms);
            self.facts_of(facts, variable);
        }
    }
}

// The atoms that are facts of the variable x. Here, at facts and below asked, bound, atoms and variables go beside each other: write gets them so, and
// a struct of them would be made there for two calls.
fn fact_set(asked: &Asked, bound: VariableSet, x: Variable, atoms: usize) -> AtomSet
    requires { atoms ≤ 32 }
    ensures { result.0 ≡ fact_set atoms bound.0 (asked_of_variables asked.now) x.0 }
{
    if bound.has(x) {
        return AtomSet::empty();
    }
    AtomSet::below(atoms as u8).intersection(demands::of_variable(asked, x))
}

fn count_facts(asked: &Asked, bound: VariableSet, atoms: usize, variables: usize) -> usize
    requires { (variables ≤ 64) × (atoms ≤ 32) }
    ensures { result ≡ length (facts_in atoms variables bound.0 (asked_of_variables asked.now)) }
{
    let mut n: usize = 0;
    for x in 0..variables {
        let facts = fact_set(asked, bound, Variable(x as u8), atoms);
        // Of a u32 no From makes a usize.
        n += facts.0.count_ones() as usize;
    }
    n
}

// The answer of a run that accepted: `asked` has for each variable the atoms that must be fresh for it once all demands are resolved. Gives the
// answer's length; or refuses, with the length wanted, and the output stays as it was.
pub fn write(
    output: &mut [u8],
    bindings: &Shown,
    asked: &Asked,
    steps: u32,
    k: usize,
    bound: VariableSet,
    atoms: usize,
    variables: usize,
) -> Solved
    requires { Keeps bindings.now.made.now k bound.0 × (atoms ≤ 32) × (variables ≤ 64) }
    ensures { result_of result output.new ≡ written
        (answer_bytes steps (bindings_of atoms (binding_tables bindings.now.made.now bindings.now.values.now) k)
        (facts_in atoms variables bound.0 (asked_of_variables asked.now)))
        output.old }
{
    let facts = count_facts(asked, bound, atoms, variables);
    let wanted = STEPS + k * (BINDING + atoms) + FACT * facts;
    if output.len() < wanted {
        return Err(numbers::refuse(Reason::TooShort, wanted));
    }
    let mut writer = Writer { output, at: 0 };
    writer.steps(steps);
    writer.bindings(bindings, k, atoms);
    writer.facts(asked, bound, atoms, variables);
    Ok(writer.at)
}
