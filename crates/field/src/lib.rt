// The field reader: what stands at the front of some bytes, its body as a part of them, and the numbers in a body. Nothing is copied.
#![tactic(auto)]

pub mod word; // word.rt: the first eight bytes of a field as one number

ghost use Rattle.std.specs.Prelude.{◌≡◌, ◌+◌, ◌≤◌, ◌<◌, length, take, drop};
ghost use Rattle.field.specs.Field.{word, long};
ghost use Rattle.field.specs.Front.{front_of};

// A whole field with its tag and the length of its body; a field that is cut short; nothing. Document 01 tells three things apart, and so does each
// caller's one match: an Option in a Result would tell them in two.
#[derive(Clone, Copy, PartialEq, Eq)]
pub enum AtFront {
    Whole(u8, usize),
    Cut,
    End,
}

#[tactic(auto, using(crate::proofs::Told::is_end, crate::proofs::Told::is_short, crate::proofs::Told::is_whole, crate::proofs::Told::is_cut))]
pub fn front(s: &[u8]) -> AtFront
    ensures { result ≡ front_of s.now }
{
    match s {
        [] => AtFront::End,
        [tag, high, low, rest @ ..] => {
            let n = usize::from(u16::from_be_bytes([*high, *low]));
            if n <= rest.len() {
                AtFront::Whole(*tag, n)
            } else {
                AtFront::Cut
            }
        }
        _ => AtFront::Cut,
    }
}

// The body, a part of the caller's slice.
pub fn body(s: &[u8], n: usize) -> &[u8]
    requires { 3 + n ≤ length s.now }
    ensures { result.now ≡ take n (drop 3 s.now) }
{
    &s[3..3 + n]
}

// The number in the two bytes from i; `four` is not the same function, since from_be_bytes is of each type and of no trait.
pub fn two(s: &[u8], i: usize) -> u16
    requires { i + 2 ≤ length s.now }
    ensures { result ≡ word s.now i }
{
    u16::from_be_bytes([s[i], s[i + 1]])
}

// The number in the four bytes from i.
pub fn four(s: &[u8], i: usize) -> u32
    requires { i + 4 ≤ length s.now }
    ensures { result ≡ long s.now i }
{
    u32::from_be_bytes([s[i], s[i + 1], s[i + 2], s[i + 3]])
}
