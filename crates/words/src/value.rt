// Words as signed numbers, and exact numbers as words.

ghost use Rattle.std.specs.Prelude.{◌≡◌, ◌+ℤ◌, ◌-ℤ◌, ◌*ℤ◌};
ghost use Rattle.words.specs.Value.{signed, low, within, clamp, shift_count};

// The value of a word in two's complement. Half a turn up and down again: no branch on the sign.
pub fn signed_value(w: u32) -> i64
    ensures { result ≡ signed w }
{
    w.wrapping_add(0x8000_0000) as i64 - 0x8000_0000
}

// The low 32 bits.
pub fn low_bits(z: i64) -> u32
    ensures { result ≡ low z }
{
    (z & 0xFFFF_FFFF) as u32
}

// Whether z lies from lo to hi.
#[tactic(auto, unfolding(crate::specs::Value::within))]
pub fn in_range(lo: i64, hi: i64, z: i64) -> bool
    ensures { result ≡ within lo hi z }
{
    (lo..=hi).contains(&z)
}

// z, or the end of the range that it lies past.
#[tactic(auto, unfolding(crate::specs::Value::clamp))]
pub fn clamped(lo: i64, hi: i64, z: i64) -> i64
    ensures { result ≡ clamp lo hi z }
{
    if z < lo {
        lo
    } else if hi < z {
        hi
    } else {
        z
    }
}

// A shift count: the signed low six bits.
pub fn shift_count(b: u32) -> i32
    ensures { result ≡ shift_count b }
{
    let n = b % 64;
    if n < 32 { n as i32 } else { n as i32 - 64 }
}

// The exact sum of two words' signed values.
pub fn sum(a: u32, b: u32) -> i64
    ensures { result ≡ signed a +ℤ signed b }
{
    signed_value(a) + signed_value(b)
}

// The exact difference of two words' signed values.
pub fn difference(a: u32, b: u32) -> i64
    ensures { result ≡ signed a -ℤ signed b }
{
    signed_value(a) - signed_value(b)
}

// The exact product of two words' signed values.
pub fn product(a: u32, b: u32) -> i64
    ensures { result ≡ signed a *ℤ signed b }
{
    signed_value(a) * signed_value(b)
}
