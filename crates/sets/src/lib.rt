// Sets of atoms and sets of variables as the bits of one word: small values, passed and returned by value. The reader keeps the protected
// variables and the atoms assumed fresh for a variable so. The run asks of a node's set of variables whether one occurs, and hands the atoms
// that must be fresh on to a node's parts together, not one at a time.
//
// Every function is for every input. An atom of 32 or more and a variable of 64 or more are in no set, and adding one changes nothing.
// Where a number is cast to a smaller type it is less than that type holds: try_from would bring a branch that is never taken.
#![tactic(auto)]

ghost use Rattle.std.specs.Prelude.{◌≡◌, ◌<◌, ◌≤◌, ◌^◌, ℕ, eqb};
ghost use Rattle.std.proofs.Common.{lit≤};
ghost use Rattle.sets.specs.Bits.{member, union, intersection, difference, inserted, removed, all_below, lowest};

use names::{Atom, Variable};

// A word whose bits are a set, and the names that they stand for: bit i for the name with number i. What is done with the bits is done in the
// widest word.
pub trait Word: Copy {
    type Name;

    ghost WIDTH: { ℕ };

    ghost bits: { Self → ℕ };

    ghost number: { Self.Name → ℕ };

    const WIDTH: u8;

    fn wide(self) -> u64
        ensures is { result ≡ bits self }
        ensures fits { result < 2 ^ WIDTH };

    fn narrow(wide: u64) -> Self
        requires { wide < 2 ^ WIDTH }
        ensures { bits result ≡ wide };

    fn number(name: Self::Name) -> u8
        ensures { result ≡ number name };

    fn name(i: u8) -> Self::Name
        ensures { number result ≡ i };

    // Each set has room in the widest word.
    ghost within: { WIDTH ≤ 64 };
}

// Atoms in 32 bits.
impl Word for u32 {
    type Name = Atom;

    ghost WIDTH = { 32 };

    ghost bits = { λ w. w };

    ghost number = { λ a. a.0 };

    const WIDTH: u8 = 32;

    fn wide(self) -> u64 {
        u64::from(self)
    }

    fn narrow(wide: u64) -> u32 {
        wide as u32
    }

    fn number(a: Atom) -> u8 {
        a.0
    }

    fn name(i: u8) -> Atom {
        Atom(i)
    }

    ghost within = { lit≤ tt };
}

// Variables in 64.
impl Word for u64 {
    type Name = Variable;

    ghost WIDTH = { 64 };

    ghost bits = { λ w. w };

    ghost number = { λ x. x.0 };

    const WIDTH: u8 = 64;

    fn wide(self) -> u64 {
        self // the widest word as it is
    }

    fn narrow(wide: u64) -> u64 {
        wide
    }

    fn number(x: Variable) -> u8 {
        x.0
    }

    fn name(i: u8) -> Variable {
        Variable(i)
    }

    ghost within = { lit≤ tt };
}

#[derive(Clone, Copy, PartialEq, Eq)]
pub struct Set<W>(pub W);

pub type AtomSet = Set<u32>;

pub type VariableSet = Set<u64>;

impl<W: Word> Set<W> {
    pub fn empty() -> Set<W>
        ensures { W.bits result.0 ≡ 0 }
    {
        Set(W::narrow(0))
    }

    pub fn below(n: u8) -> Set<W>
        ensures { W.bits result.0 ≡ all_below W.WIDTH n }
    {
        let n = n.min(W::WIDTH);
        if n < 64 {
            Set(W::narrow((1u64 << n) - 1))
        } else {
            Set(W::narrow(u64::MAX))
        }
    }

    pub fn has(self, name: W::Name) -> bool
        ensures { result ≡ member (W.bits self.0) (W.number name) }
    {
        let w = self.0.wide();
        let i = W::number(name);
        if i < W::WIDTH {
            (w >> i) & 1 == 1
        } else {
            false
        }
    }

    pub fn with(self, name: W::Name) -> Set<W>
        ensures { W.bits result.0 ≡ inserted W.WIDTH (W.bits self.0) (W.number name) }
    {
        let w = self.0.wide();
        let i = W::number(name);
        if i < W::WIDTH {
            Set(W::narrow(w | (1u64 << i)))
        } else {
            self
        }
    }

    pub fn without(self, name: W::Name) -> Set<W>
        ensures { W.bits result.0 ≡ removed (W.bits self.0) (W.number name) }
    {
        let w = self.0.wide();
        let i = W::number(name);
        if i < W::WIDTH {
            Set(W::narrow(w & !(1u64 << i)))
        } else {
            self
        }
    }

    pub fn union(self, other: Set<W>) -> Set<W>
        ensures { W.bits result.0 ≡ union (W.bits self.0) (W.bits other.0) }
    {
        Set(W::narrow(self.0.wide() | other.0.wide()))
    }

    pub fn intersection(self, other: Set<W>) -> Set<W>
        ensures { W.bits result.0 ≡ intersection (W.bits self.0) (W.bits other.0) }
    {
        Set(W::narrow(self.0.wide() & other.0.wide()))
    }

    pub fn minus(self, other: Set<W>) -> Set<W>
        ensures { W.bits result.0 ≡ difference (W.bits self.0) (W.bits other.0) }
    {
        Set(W::narrow(self.0.wide() & !other.0.wide()))
    }

    pub fn is_empty(self) -> bool
        ensures { result ≡ eqb (W.bits self.0) 0 }
    {
        self.0.wide() == 0
    }

    // The least member: the width for the empty set, which is no name's number. So a loop over the members asks `is_empty` first.
    // No Option: docs/PROVED.md names Set together with the definition lowest, which gives the width there.
    pub fn lowest(self) -> W::Name
        ensures { W.number result ≡ lowest W.WIDTH (W.bits self.0) }
    {
        let w = self.0.wide();
        if w == 0 {
            W::name(W::WIDTH)
        } else {
            W::name(u64::trailing_zeros(w) as u8)
        }
    }

    pub fn without_lowest(self) -> Set<W>
        ensures { W.bits result.0 ≡ removed (W.bits self.0) (lowest W.WIDTH (W.bits self.0)) }
    {
        let w = self.0.wide();
        if w == 0 {
            self
        } else {
            Set(W::narrow(w & (w - 1)))
        }
    }
}
