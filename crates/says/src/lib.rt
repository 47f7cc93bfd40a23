// What one whole field after the head says, or why it is refused. The tests stand in the order of document 01: 4, 5, 6, 7.
#![tactic(auto)]

ghost use Rattle.std.specs.Prelude.{◌≡◌, ◌≢◌, ◌<◌, ◌≤◌, length, MatchResult, nat_lt};
ghost use Rattle.says.specs.Told.{below, said_of, sized, NamedIf};

use names::{Atom, MOST_NODES, NodeId, Variable};
use numbers::Reason;
use problem::{MOST_EQUATIONS, MOST_FRESHNESS};

// How many there are so far: all that decides whether a field is at fault. Not problem's Counts: a limit and protected variables decide nothing here.
#[derive(Clone, Copy, PartialEq, Eq)]
pub struct Sizes {
    pub atoms: u8,
    pub variables: u8,
    pub nodes: u16,
    pub equations: u8,
    pub freshness: u8,
}

#[derive(Clone, Copy, PartialEq, Eq)]
pub enum Said {
    Node,
    Equation,
    Freshness,
    Assumption(Atom, Variable),
    Protection(Variable),
}

// One test of a field each, with the row of document 01's table that stands for it: 5, 6, and three times 7. The three stay apart, as the kinds of name are:
// each has a count of its own and hands on a name of its own type.
fn has_length(b: &[u8], n: usize) -> Result<(), Reason>
    ensures { MatchResult result (λ _. length b.now ≡ n)
        (λ r. (length b.now ≢ n) × (r ≡ Reason.WrongLength)) }
{
    (b.len() == n).then_some(()).ok_or(Reason::WrongLength)
}

fn room_after(there: usize, most: usize) -> Result<(), Reason>
    ensures { MatchResult result (λ _. there < most)
        (λ r. (most ≤ there) × (r ≡ Reason.TooMany)) }
{
    (there < most).then_some(()).ok_or(Reason::TooMany)
}

impl Sizes {
    fn atom(self, a: u8) -> Result<Atom, Reason>
        ensures { NamedIf result (nat_lt a self.atoms) (record { 0 = a }) }
    {
        (a < self.atoms).then_some(Atom(a)).ok_or(Reason::NotThere)
    }

    fn variable(self, x: u8) -> Result<Variable, Reason>
        ensures { NamedIf result (nat_lt x self.variables) (record { 0 = x }) }
    {
        (x < self.variables)
            .then_some(Variable(x))
            .ok_or(Reason::NotThere)
    }

    fn node(self, n: u16) -> Result<NodeId, Reason>
        ensures { NamedIf result (nat_lt n self.nodes) (record { 0 = n }) }
    {
        (n < self.nodes)
            .then_some(NodeId(n))
            .ok_or(Reason::NotThere)
    }
}

// A function for each row of document 01's table, as it stands there; what rows have in common are the tests above.
#[tactic(auto, using(crate::proofs::ByTag::unit_said))]
fn unit(b: &[u8], z: Sizes) -> Result<Said, Reason>
    ensures { result ≡ said_of (sized z) 0x10 b.now }
{
    has_length(b, 0)?;
    room_after(usize::from(z.nodes), MOST_NODES)?;
    Ok(Said::Node)
}

#[tactic(auto, using(crate::proofs::ByTag::atom_said))]
fn atom(b: &[u8], z: Sizes) -> Result<Said, Reason>
    ensures { result ≡ said_of (sized z) 0x11 b.now }
{
    has_length(b, 1)?;
    room_after(usize::from(z.nodes), MOST_NODES)?;
    z.atom(b[0])?;
    Ok(Said::Node)
}

#[tactic(auto, using(crate::proofs::ByTag::abstraction_said))]
fn abstraction(b: &[u8], z: Sizes) -> Result<Said, Reason>
    ensures { result ≡ said_of (sized z) 0x12 b.now }
{
    has_length(b, 3)?;
    room_after(usize::from(z.nodes), MOST_NODES)?;
    z.atom(b[0])?;
    z.node(field::two(b, 1))?;
    Ok(Said::Node)
}

#[tactic(auto, using(crate::proofs::ByTag::pair_said))]
fn pair(b: &[u8], z: Sizes) -> Result<Said, Reason>
    ensures { result ≡ said_of (sized z) 0x13 b.now }
{
    has_length(b, 4)?;
    room_after(usize::from(z.nodes), MOST_NODES)?;
    z.node(field::two(b, 0))?;
    z.node(field::two(b, 2))?;
    Ok(Said::Node)
}

#[tactic(auto, using(crate::proofs::ByTag::application_said))]
fn application(b: &[u8], z: Sizes) -> Result<Said, Reason>
    ensures { result ≡ said_of (sized z) 0x14 b.now }
{
    has_length(b, 4)?;
    room_after(usize::from(z.nodes), MOST_NODES)?;
    z.node(field::two(b, 2))?;
    Ok(Said::Node)
}

// Every byte names an atom. The greatest is looked for with no early end, so that many are taken at once.
pub fn all_below(b: &[u8], atoms: u8) -> bool
    ensures { result ≡ below atoms b.now }
{
    let mut most: u8 = 0;
    for a in b {
        most = most.max(*a);
    }
    b.is_empty() || most < atoms
}

#[tactic(auto, using(crate::proofs::ByTag::suspension_even, crate::proofs::ByTag::suspension_long, crate::proofs::ByTag::suspension_said))]
fn suspension(b: &[u8], z: Sizes) -> Result<Said, Reason>
    ensures { result ≡ said_of (sized z) 0x15 b.now }
{
    if b.len() % 2 != 1 || b.len() > 65 {
        return Err(Reason::WrongLength);
    }
    room_after(usize::from(z.nodes), MOST_NODES)?;
    z.variable(b[0])?;
    if !all_below(&b[1..], z.atoms) {
        return Err(Reason::NotThere);
    }
    Ok(Said::Node)
}

#[tactic(auto, using(crate::proofs::ByTag::equation_said))]
fn equation(b: &[u8], z: Sizes) -> Result<Said, Reason>
    ensures { result ≡ said_of (sized z) 0x20 b.now }
{
    has_length(b, 4)?;
    room_after(usize::from(z.equations), MOST_EQUATIONS)?;
    z.node(field::two(b, 0))?;
    z.node(field::two(b, 2))?;
    Ok(Said::Equation)
}

#[tactic(auto, using(crate::proofs::ByTag::freshness_said))]
fn freshness(b: &[u8], z: Sizes) -> Result<Said, Reason>
    ensures { result ≡ said_of (sized z) 0x21 b.now }
{
    has_length(b, 3)?;
    room_after(usize::from(z.freshness), MOST_FRESHNESS)?;
    z.atom(b[0])?;
    z.node(field::two(b, 1))?;
    Ok(Said::Freshness)
}

#[tactic(auto, using(crate::proofs::ByTag::assumption_said))]
fn assumption(b: &[u8], z: Sizes) -> Result<Said, Reason>
    ensures { result ≡ said_of (sized z) 0x22 b.now }
{
    has_length(b, 2)?;
    let a = z.atom(b[0])?;
    let x = z.variable(b[1])?;
    Ok(Said::Assumption(a, x))
}

#[tactic(auto, using(crate::proofs::ByTag::protection_said))]
fn protection(b: &[u8], z: Sizes) -> Result<Said, Reason>
    ensures { result ≡ said_of (sized z) 0x30 b.now }
{
    has_length(b, 1)?;
    let x = z.variable(b[0])?;
    Ok(Said::Protection(x))
}

// The tags are the numbers of document 01's table, and this match is where they are known or not: an enum of tags would need the same match, and a second.
#[tactic(auto, using(crate::proofs::Saying::no_base_tag), unfolding(crate::specs::Told::said_of, problem::specs::Reader::fault))]
pub fn field_says(tag: u8, b: &[u8], z: Sizes) -> Result<Said, Reason>
    ensures { result ≡ said_of (sized z) tag b.now }
{
    match tag {
        0x10 => unit(b, z),
        0x11 => atom(b, z),
        0x12 => abstraction(b, z),
        0x13 => pair(b, z),
        0x14 => application(b, z),
        0x15 => suspension(b, z),
        0x20 => equation(b, z),
        0x21 => freshness(b, z),
        0x22 => assumption(b, z),
        0x30 => protection(b, z),
        _ => Err(Reason::UnknownTag),
    }
}
