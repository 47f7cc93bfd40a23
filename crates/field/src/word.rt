// The first eight bytes of a field as one number: its tag, its length and the numbers in a short body are read at once.
// Where a number is cast to a smaller type it is less than that type holds: try_from would bring a branch that is never taken.
ghost use Rattle.std.specs.Prelude.{◌≡◌, ◌+◌, ◌≤◌, ◌<◌, length};
ghost use Rattle.field.specs.Field.{byte};
ghost use Rattle.field.specs.Word as opened;

use crate::four;

// Where fewer than eight are left: the first four and the last four, which may overlap, moved up so that zeros stand behind the last one.
fn few(s: &[u8]) -> u64
    requires { (4 ≤ length s.now) × (length s.now < 8) }
    ensures { result ≡ opened.eight s.now }
{
    let n = s.len();
    let high = u64::from(four(s, 0));
    let low = (u64::from(four(s, n - 4)) << (8 * (8 - n))) % 4294967296;
    high * 4294967296 + low
}

fn byte_or_zero(s: &[u8], i: usize) -> u8
    ensures { result ≡ byte s.now i }
{
    s.get(i).copied().unwrap_or(0)
}

// Where fewer than four are left, zeros stand from the fourth on.
#[tactic(auto, using(crate::proofs::Words::fewest_joined))]
fn fewest(s: &[u8]) -> u64
    requires { length s.now < 4 }
    ensures { result ≡ opened.eight s.now }
{
    let [a, b, c] = [byte_or_zero(s, 0), byte_or_zero(s, 1), byte_or_zero(s, 2)];
    u64::from_be_bytes([a, b, c, 0, 0, 0, 0, 0])
}

// The number in the first eight bytes of what is left of the input, however little that is. Where eight are left the compiler makes it one load.
#[tactic(auto, unfolding(crate::specs::Word::eight))]
pub fn eight(s: &[u8]) -> u64
    ensures { result ≡ opened.eight s.now }
{
    if let Some(first) = s.first_chunk() {
        return u64::from_be_bytes(*first);
    }
    if s.len() >= 4 {
        return few(s);
    }
    fewest(s)
}

// What it has of a field. One expression each, and a name for it: one function with the place for a parameter would be read with document 01's table in hand.
pub fn tag(w: u64) -> u8
    ensures { result ≡ opened.tag_in w }
{
    (w / 72057594037927936) as u8
}

pub fn length(w: u64) -> usize
    ensures { (result ≡ opened.length_in w) × (result < 65536) }
{
    (w / 1099511627776 % 65536) as usize
}

pub fn key(w: u64) -> u64
    ensures { result ≡ opened.key_in w }
{
    w / 1099511627776
}

pub fn first_byte(w: u64) -> u8
    ensures { result ≡ opened.first_byte_in w }
{
    (w / 4294967296 % 256) as u8
}

pub fn second_byte(w: u64) -> u8
    ensures { result ≡ opened.second_byte_in w }
{
    (w / 16777216 % 256) as u8
}

pub fn first_two(w: u64) -> u16
    ensures { result ≡ opened.first_two_in w }
{
    (w / 16777216 % 65536) as u16
}

pub fn middle_two(w: u64) -> u16
    ensures { result ≡ opened.middle_two_in w }
{
    (w / 65536 % 65536) as u16
}

pub fn last_two(w: u64) -> u16
    ensures { result ≡ opened.last_two_in w }
{
    (w / 256 % 65536) as u16
}
