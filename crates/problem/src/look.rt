// Nodes, equations and freshness fields of a problem that was read, from the table that the reader left, and a suspension's swaps from the input; and what
// is assumed, from the sets that it left.
ghost use Rattle.std.specs.Prelude.{◌≡◌, ◌<◌};
ghost use Rattle.permutation.specs.Swaps.{swaps_in};
ghost use Rattle.problem.specs.Held.{assumed_for, node_word};
ghost use Rattle.problem.specs.Look.{NodeStands, form_in, form_now, form_told, bare_in, bare_of, Suspended, own_swaps};
ghost use Rattle.problem.specs.Look.{EquationStands, equation_now, equation_told, FreshnessStands, freshness_now, freshness_told};

use crate::{Assumed, EQUATIONS, FRESHNESS, Form, Input, Places};
use field::word;
use names::{Atom, NodeId, Variable};
use sets::{AtomSet, Set};

#[derive(Clone, Copy, PartialEq, Eq)]
pub struct Equation {
    pub left: NodeId,
    pub right: NodeId,
}

#[derive(Clone, Copy, PartialEq, Eq)]
pub struct Freshness {
    pub atom: Atom,
    pub node: NodeId,
}

// The form that the table has for a node, whatever the input. The tags are document 01's own numbers, and this match makes forms of them: with an enum of
// tags there would be two, one to make the tag and one of the tag.
#[tactic(auto, unfolding(crate::specs::Look::form_in))]
pub fn form_at(places: &Places, n: NodeId) -> Form
    requires { n.0 < 512 }
    ensures { result ≡ form_in (node_word places.now n.0) }
{
    let w = places[usize::from(n.0)];
    match word::tag(w) {
        0x10 => Form::Unit,
        0x11 => Form::Atom(Atom(word::first_byte(w))),
        0x12 => Form::Abstraction(Atom(word::first_byte(w)), NodeId(word::middle_two(w))),
        0x13 => Form::Pair(NodeId(word::first_two(w)), NodeId(word::last_two(w))),
        0x14 => Form::Application(word::first_two(w), NodeId(word::last_two(w))),
        _ => Form::Suspension(Variable(word::first_byte(w))),
    }
}

// The variable that the table has for a suspension without swaps, whatever the input; any other node has none.
#[tactic(auto, unfolding(crate::specs::Look::bare_in))]
pub fn bare_at(places: &Places, n: NodeId) -> Option<Variable>
    requires { n.0 < 512 }
    ensures { result ≡ bare_in (node_word places.now n.0) }
{
    let w = places[usize::from(n.0)];
    if word::key(w) == 0x150001 {
        return Some(Variable(word::first_byte(w)));
    }
    None
}

// The atoms that are assumed fresh for a variable.
pub fn assumed_for(assumed: &Assumed, x: Variable) -> AtomSet
    requires { x.0 < 64 }
    ensures { result.0 ≡ assumed_for assumed.now x.0 }
{
    Set(assumed[usize::from(x.0)])
}

impl<'a, 't> Input<'a, 't> {
    // The form that a node of the input has.
    #[tactic(auto, using(crate::proofs::Looking::form_kept))]
    pub fn form_of(&self, n: NodeId) -> Form
        requires { NodeStands self.now.bytes.now self.now.places.now n.0 }
        ensures { result ≡ form_told (form_now self.now.bytes.now n.0) }
    {
        form_at(self.places, n)
    }

    // The variable of a suspension without swaps; any other node has none.
    #[tactic(auto, using(crate::proofs::Looking::variable_kept))]
    pub fn bare(&self, n: NodeId) -> Option<Variable>
        requires { NodeStands self.now.bytes.now self.now.places.now n.0 }
        ensures { result ≡ bare_of (form_now self.now.bytes.now n.0) }
    {
        bare_at(self.places, n)
    }

    // The swaps of a suspension, two bytes each, as a part of the input.
    pub fn swaps_of(&self, n: NodeId) -> &'a [u8]
        requires { NodeStands self.now.bytes.now self.now.places.now n.0 × Suspended (form_now self.now.bytes.now n.0) }
        ensures { swaps_in result.now ≡ own_swaps (form_now self.now.bytes.now n.0) }
    {
        let w = self.places[usize::from(n.0)];
        // No From makes a usize of a u64.
        let at = (w % 65536) as usize;
        let start = at + 4;
        let end = at + 3 + word::length(w);
        &self.bytes[start..end]
    }

    pub fn equation_at(&self, k: usize) -> Equation
        requires { EquationStands self.now.bytes.now self.now.places.now k }
        ensures { result ≡ equation_told (equation_now self.now.bytes.now k) }
    {
        let w = self.places[EQUATIONS + k];
        Equation {
            left: NodeId(word::first_two(w)),
            right: NodeId(word::last_two(w)),
        }
    }

    pub fn freshness_at(&self, k: usize) -> Freshness
        requires { FreshnessStands self.now.bytes.now self.now.places.now k }
        ensures { result ≡ freshness_told (freshness_now self.now.bytes.now k) }
    {
        let w = self.places[FRESHNESS + k];
        Freshness {
            atom: Atom(word::first_byte(w)),
            node: NodeId(word::middle_two(w)),
        }
    }
}
