// What an input opens with. The tests of its first field stand in the order of document 01: 3, then 2.
#![tactic(auto)]

ghost use Rattle.std.specs.Prelude.{◌≡◌};
ghost use Rattle.opening.specs.Head.{head_said, opening_of};

use field::AtFront;
use numbers::Reason;

// A good head's atoms, variables and step limit.
#[derive(Clone, Copy, PartialEq, Eq)]
pub struct Head {
    pub atoms: u8,
    pub variables: u8,
    pub limit: u32,
}

#[tactic(auto, unfolding(crate::specs::Head::head_said, problem::specs::Reader::good_head))]
fn head_says(tag: u8, b: &[u8]) -> Result<Head, Reason>
    ensures { result ≡ head_said tag b.now }
{
    if tag != 1 || b.len() != 6 || b[0] > 32 || b[1] > 64 {
        return Err(Reason::NoHead);
    }
    Ok(Head {
        atoms: b[0],
        variables: b[1],
        limit: field::four(b, 2),
    })
}

// Its numbers, or that the first field is no good head or is cut.
#[tactic(auto, using(crate::proofs::Front::opened_end, crate::proofs::Front::opened_cut, crate::proofs::Front::opened_whole))]
pub fn opened(s: &[u8]) -> Result<Head, Reason>
    ensures { result ≡ opening_of s.now }
{
    match field::front(s) {
        AtFront::End => Err(Reason::NoHead),
        AtFront::Cut => Err(Reason::Cut),
        AtFront::Whole(tag, n) => head_says(tag, field::body(s, n)),
    }
}
