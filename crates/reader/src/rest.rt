// What is left of the input where a field begins.
ghost use Rattle.std.specs.Prelude.{◌≡◌, ◌+◌, ◌≤◌, length, drop};
ghost use Rattle.field.specs.Field.{Bytes};
ghost use Rattle.field.specs.Word.{eight};

use field::word;

// The bytes from the field's tag on, where the tag stands, and the first eight of the bytes as one number.
// Not compared: of two rests of one input the places say it, and == would go over the bytes.
#[derive(Clone, Copy)]
pub struct Rest<'a> {
    pub bytes: &'a [u8],
    pub place: usize,
    pub word: u64,
    ghost are_bytes: { Bytes bytes.now },
    ghost first_eight: { word ≡ eight bytes.now },
    ghost short: { place + length bytes.now ≤ 65535 },
}

impl<'a> Rest<'a> {
    pub fn at(input: &'a [u8], place: usize) -> Rest<'a>
        requires { (place ≤ length input.now) × (length input.now ≤ 65535) }
        ensures { (result.bytes.now ≡ drop place input.now) × (result.place ≡ place) }
    {
        let bytes = &input[place..];
        Rest {
            bytes,
            place,
            word: word::eight(bytes),
        }
    }

    // The same, where its first eight bytes are known.
    pub fn known(input: &'a [u8], place: usize, word: u64) -> Rest<'a>
        requires { (place ≤ length input.now) × (length input.now ≤ 65535) × (word ≡ eight (drop place input.now)) }
        ensures { (result.bytes.now ≡ drop place input.now) × (result.place ≡ place) × (result.word ≡ word) }
    {
        Rest {
            bytes: &input[place..],
            place,
            word,
        }
    }
}
