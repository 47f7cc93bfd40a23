// Permutations of up to 32 atoms, by value. Each contract equates the result with a definition of specs/Table.antt, for every content of the
// arrays, so a caller knows a permutation by its operations and never by its store. The number of atoms in use, n, is a parameter: the cost of
// an operation follows n and not 32. That n is at most 32 each that needs it asks: a type for n would be taken apart to compare and to count.
// Where a number is cast to a smaller type it is less than that type holds: try_from would bring a branch that is never taken.
#![tactic(auto)]

ghost use Rattle.std.specs.Prelude.{◌≡◌, true, ℕ, ◌≤◌, ◌<◌, length, map};
ghost use Rattle.permutation.specs.Swaps.{swapped, Within, swaps_in};
ghost use Rattle.permutation.specs.Table.{image, tabulate, identity, after, inverted, of_swaps, swapped_after, disagreement};
ghost use Rattle.permutation.specs.Store.{table, of_table};
ghost use Rattle.sets.specs.Bits.{of_list};

use names::{Atom, MOST_ATOMS};
use sets::AtomSet;

#[derive(Clone, Copy, PartialEq, Eq)]
pub struct Permutation {
    pub images: [u8; MOST_ATOMS],
}

// Every atom at its own place.
pub const EACH: [u8; MOST_ATOMS] = [
    0, 1, 2, 3, 4, 5, 6, 7, 8, 9, 10, 11, 12, 13, 14, 15, 16, 17, 18, 19, 20, 21, 22, 23, 24, 25,
    26, 27, 28, 29, 30, 31,
];

// The permutation that sends each of n atoms to itself.
pub fn identity(n: usize) -> Permutation
    requires { n ≤ 32 }
    ensures { result ≡ of_table (identity n) }
{
    Permutation { images: EACH }
}

// Whether every atom is sent to itself. By value, as image.
pub fn is_identity(p: Permutation) -> bool
    ensures { result ≡ true → (n : ℕ) → n ≤ 32 → table n p ≡ identity n }
{
    each_stays(&p.images)
}

// The same of images wherever they lie, a row of a lent table too. All 32 places are looked at with no test between them, so that many are taken at once.
// Not by images == EACH, which proves too: a million plain steps then take 23% more instructions.
pub fn each_stays(images: &[u8]) -> bool
    requires { length images.now ≡ 32 }
    ensures { result ≡ true → (n : ℕ) → n ≤ 32 → table n (record { images = images.entry.now }) ≡ identity n }
{
    let mut other = false;
    for a in 0..MOST_ATOMS {
        other = other | (images[a] != a as u8);
    }
    !other
}

// The image of an atom: itself, if it is none of the n. By value, for who has a Permutation; the work is image_in's.
pub fn image(p: Permutation, n: usize, a: Atom) -> Atom
    requires { n ≤ 32 }
    ensures { result.0 ≡ image (table n p) a.0 }
{
    image_in(&p.images, n, a)
}

// The same under images wherever they lie.
// n stands beside the slice here and below: a row has 32 places, and the definitions (image, table) speak of n of them.
pub fn image_in(images: &[u8], n: usize, a: Atom) -> Atom
    requires { n ≤ length images.now }
    ensures { result.0 ≡ image (table n (record { images = images.entry.now })) a.0 }
{
    let i = usize::from(a.0);
    if i < n { Atom(images[i]) } else { a }
}

// The atom whose image is a: of several the first counts, and it is 0 if there is none, as the definition (inverted) has it.
// By index: what position promises speaks of the run of its iterator, and the goal stayed open when it was tried.
pub fn preimage(images: &[u8], n: usize, a: Atom) -> Atom
    requires { (n ≤ 32) × (n ≤ length images.now) × (a.0 < n) }
    ensures { result.0 ≡ image (inverted (table n (record { images = images.entry.now }))) a.0 }
{
    for i in 0..n {
        if images[i] == a.0 {
            return Atom(i as u8);
        }
    }
    Atom(0)
}

// First q, then p. By index here and below: a zip over a part of r lends it, and what r has after that is not known (as at unplaced).
pub fn compose(p: Permutation, q: Permutation, n: usize) -> Permutation
    requires { n ≤ 32 }
    ensures { result ≡ of_table (after (table n p) (table n q)) }
{
    let mut r = Permutation { images: EACH };
    for i in 0..n {
        r.images[i] = image_in(&p.images, n, Atom(q.images[i])).0;
    }
    r
}

// Each of n atoms at 0: what an inverse has of them before any place is looked at. Not by `fill`: what an array has after a part of it was lent is not known.
fn unplaced(n: usize) -> Permutation
    requires { n ≤ 32 }
    ensures { result ≡ of_table (tabulate n (λ a. 0)) }
{
    let mut r = Permutation { images: EACH };
    for i in 0..n {
        r.images[i] = 0;
    }
    r
}

// The inverse. An atom that is no image gets 0; of several places the first counts, so the loop runs down.
pub fn invert(p: Permutation, n: usize) -> Permutation
    requires { n ≤ 32 }
    ensures { result ≡ of_table (inverted (table n p)) }
{
    let mut r = unplaced(n);
    for i in (0..n).rev() {
        let k = usize::from(p.images[i]);
        if k < n {
            r.images[k] = i as u8;
        }
    }
    r
}

// An atom under one swap.
pub fn swap_atom(a: Atom, b: Atom, c: Atom) -> Atom
    ensures { result.0 ≡ swapped a.0 b.0 c.0 }
{
    if c == a {
        b
    } else if c == b {
        a
    } else {
        c
    }
}

// The same of each image, where they lie, with no test between them.
pub fn swap_in(images: &mut [u8], a: Atom, b: Atom)
    ensures { images.new ≡ map (swapped a.0 b.0) images.old }
{
    for image in images {
        *image = swap_atom(a, b, Atom(*image)).0;
    }
}

// First p, then the swap of a and b. Not by swap_in on a part of r, for the reason at unplaced.
pub fn swap_after(a: Atom, b: Atom, p: Permutation, n: usize) -> Permutation
    requires { n ≤ 32 }
    ensures { result ≡ of_table (swapped_after a.0 b.0 (table n p)) }
{
    let mut r = Permutation { images: EACH };
    for i in 0..n {
        r.images[i] = swap_atom(a, b, Atom(p.images[i])).0;
    }
    r
}

// The permutation of a suspension's swaps, as the problem's bytes have them: the rightmost acts first. From left to right, one more swap of a
// and b on the right exchanges the images of a and b. By hand: the library's swap first compares the two places, with tests that the bytes decide.
pub fn of_swaps(s: &[u8], n: usize) -> Permutation
    requires { (n ≤ 32) × Within n (swaps_in s.now) }
    ensures { result ≡ of_table (of_swaps n (swaps_in s.now)) }
{
    let mut r = identity(n);
    for pair in s.chunks_exact(2) {
        let a = usize::from(pair[0]);
        let b = usize::from(pair[1]);
        let x = r.images[a];
        r.images[a] = r.images[b];
        r.images[b] = x;
    }
    r
}

// The disagreement set. By value, as image.
pub fn disagreement(p: Permutation, q: Permutation, n: usize) -> AtomSet
    requires { n ≤ 32 }
    ensures { result.0 ≡ of_list 32 (disagreement (table n p) (table n q)) }
{
    disagreement_in(&p.images, &q.images, n)
}

// The same of images wherever they lie.
pub fn disagreement_in(images: &[u8], others: &[u8], n: usize) -> AtomSet
    requires { (n ≤ 32) × (n ≤ length images.now) × (n ≤ length others.now) }
    ensures { result.0 ≡ of_list 32 (disagreement
        (table n (record { images = images.entry.now })) (table n (record { images = others.entry.now }))) }
{
    let mut r = AtomSet::empty();
    for i in 0..n {
        if images[i] != others[i] {
            r = r.with(Atom(i as u8));
        }
    }
    r
}
