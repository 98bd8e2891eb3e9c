// An exact result written to a word, with its overflow flags (002, Table 8).

ghost use Rattle.std.specs.Prelude.{◌≡◌};
ghost use Rattle.words.specs.Result.{advance, wrapped_of, carried_of, saturated_of};

use crate::value::{clamped, in_range, low_bits};

// The least and the largest signed word.
pub const LEAST: i64 = -0x8000_0000;

pub const LARGEST: i64 = 0x7FFF_FFFF;

// A result word with V and AV.
#[derive(Clone, Copy)]
pub struct Flagged {
    pub word: u32,
    pub v: bool,
    pub av: bool,
}

// The same with C.
#[derive(Clone, Copy)]
pub struct Carried {
    pub word: u32,
    pub c: bool,
    pub v: bool,
    pub av: bool,
}

// Whether bit 31 differs from bit 30.
pub fn advanced(w: u32) -> bool
    ensures { result ≡ advance w }
{
    w / 0x8000_0000 % 2 != w / 0x4000_0000 % 2
}

// The low 32 bits of a signed result.
pub fn wrapped(z: i64) -> Flagged
    ensures { result ≡ wrapped_of z }
{
    let w = low_bits(z);
    Flagged {
        word: w,
        v: !in_range(LEAST, LARGEST, z),
        av: advanced(w),
    }
}

// The same with a carry.
pub fn with_carry(carry: bool, z: i64) -> Carried
    ensures { result ≡ carried_of carry z }
{
    let f = wrapped(z);
    Carried {
        word: f.word,
        c: carry,
        v: f.v,
        av: f.av,
    }
}

// A result held within a range. AV is taken before saturation (02, point 3).
pub fn saturated(lo: i64, hi: i64, z: i64) -> Flagged
    ensures { result ≡ saturated_of lo hi z }
{
    let unsaturated = low_bits(z);
    let written = low_bits(clamped(lo, hi, z));
    Flagged {
        word: written,
        v: !in_range(lo, hi, z),
        av: advanced(unsaturated),
    }
}
