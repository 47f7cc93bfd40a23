// Keeping what was read: the first bytes of a field, an atom that is assumed fresh for a variable. The reader calls these; what lies where is known here alone.
ghost use Rattle.std.specs.Prelude.{◌≡◌, ◌++◌, ◌≤◌, ◌<◌, length, get_or, set, drop, replicate};
ghost use Rattle.sets.specs.Bits.{inserted};
ghost use Rattle.problem.specs.Held.{with_place};

use names::{Atom, Variable};
use sets::Set;

// One atom more is assumed fresh for a variable.
pub fn assume(assumed: &mut [u32], a: Atom, x: Variable)
    requires { x.0 < length assumed.old }
    ensures { assumed.new
        ≡ set assumed.old x.0 (inserted 32 (get_or assumed.old x.0 0) a.0) }
{
    let i = usize::from(x.0);
    let atoms = Set(assumed[i]).with(a);
    assumed[i] = atoms.0;
}

// No atom is assumed fresh for any of the variables that there are. What stands behind their sets stays.
pub fn clear(assumed: &mut [u32], variables: u8)
    requires { variables ≤ length assumed.old }
    ensures { assumed.new ≡ replicate variables 0 ++ drop variables assumed.old }
{
    assumed[..usize::from(variables)].fill(0);
}

// What is kept of a field at place n: its first eight bytes; of a suspension the last two of these are its offset.
pub fn put(places: &mut [u64], n: usize, w: u64)
    requires { n < length places.old }
    ensures { places.new ≡ set places.old n w }
{
    places[n] = w;
}

pub fn put_suspension(places: &mut [u64], n: usize, w: u64, at: u16)
    requires { n < length places.old }
    ensures { places.new ≡ set places.old n (with_place at w) }
{
    places[n] = w / 65536 * 65536 + u64::from(at);
}
