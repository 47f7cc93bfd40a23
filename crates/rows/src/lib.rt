// A permutation as it lies in a lent table: a row. The pending equations and the bindings have such rows. This crate and `permutation` are the only
// ones that know how a permutation is stored.
// Most functions hand the row on to permutation's: who calls them knows what a row keeps (images_in) and not the store (docs/ARCHITECTURE.md).
#![tactic(auto, unfolding(crate::specs::Rows::images_in, crate::specs::Rows::row_kept, crate::specs::Rows::row_held, permutation::specs::Store::table))]

ghost use Rattle.std.specs.Prelude.{◌≡◌, ℕ, ◌≤◌, ◌<◌, true};
ghost use Rattle.permutation.specs.Table.{image, identity, inverted, disagreement};
ghost use Rattle.sets.specs.Bits.{of_list};
ghost use Rattle.rows.specs.Rows.{row_kept, row_held, images_in, RowSwapped};

use names::{Atom, MOST_ATOMS};
use permutation::Permutation;
use sets::AtomSet;

pub type Row = [u8; MOST_ATOMS];

pub const EMPTY: Row = [0; MOST_ATOMS];

// The row that keeps a permutation. No From, here and below: neither of the two types is this crate's.
pub fn keep(p: Permutation) -> Row
    ensures { result ≡ row_kept p }
{
    p.images
}

// The permutation that a row keeps.
pub fn load(row: Row) -> Permutation
    ensures { result ≡ row_held row }
{
    Permutation { images: row }
}

// Where the permutation of n atoms in a row sends an atom: to itself, if it is none of the n. The row is read where it lies.
pub fn image(row: &Row, n: usize, a: Atom) -> Atom
    requires { n ≤ 32 }
    ensures { result.0 ≡ image (images_in n row.now) a.0 }
{
    permutation::image_in(row, n, a)
}

// Whether a row sends every atom to itself.
pub fn is_identity(row: &Row) -> bool
    ensures { result ≡ true → (n : ℕ) → n ≤ 32 → images_in n row.now ≡ identity n }
{
    permutation::each_stays(row)
}

// The atom whose image is a: of several the first counts, and it is 0 if there is none, as the definition (inverted) has it.
pub fn preimage(row: &Row, n: usize, a: Atom) -> Atom
    requires { (n ≤ 32) × (a.0 < n) }
    ensures { result.0 ≡ image (inverted (images_in n row.now)) a.0 }
{
    permutation::preimage(row, n, a)
}

// First what the row does, then the swap of a and b: the row is changed where it lies, all 32 places with no test between them.
#[tactic(auto, using(crate::proofs::Rows::row_swapped))]
pub fn swap_after(row: &mut Row, a: Atom, b: Atom)
    ensures { RowSwapped a.0 b.0 row.old row.new }
{
    permutation::swap_in(row, a, b);
}

// The disagreement set of two rows.
pub fn disagreement(row: &Row, other: &Row, n: usize) -> AtomSet
    requires { n ≤ 32 }
    ensures { result.0 ≡ of_list 32 (disagreement (images_in n row.now) (images_in n other.now)) }
{
    permutation::disagreement_in(row, other, n)
}
