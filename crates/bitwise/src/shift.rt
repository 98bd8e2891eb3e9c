// The shifts, by the signed low six bits of the second operand (002, 8.1.1.10).

ghost use Rattle.std.specs.Prelude.{◌≡◌, ◌<◌, ◌≤◌};
ghost use Rattle.bitwise.specs.Shift.{sh_of, sha_of, sha_left, sha_right};

use words::result::{Carried, with_carry};
use words::value::{shift_count, signed_value};

pub fn sh(a: u32, b: u32) -> u32
    ensures { result ≡ sh_of a b }
{
    let n = shift_count(b);
    if n < 0 {
        (a as u64 >> (0 - n) as u64) as u32
    } else {
        a << n as u32
    }
}

pub fn sha(a: u32, b: u32) -> Carried
    ensures { result ≡ sha_of a b }
{
    let n = shift_count(b);
    if n < 0 {
        sha_right(a, (0 - n) as u64)
    } else {
        sha_left(a, n as u64)
    }
}

fn sha_left(a: u32, n: u64) -> Carried
    requires { n < 32 }
    ensures { result ≡ sha_left a n }
{
    let p = (1u64 << n) as i64;
    with_carry(0 < a as u64 >> (32 - n), signed_value(a) * p)
}

// The vacated bits are copies of the sign.
fn sha_right(a: u32, n: u64) -> Carried
    requires { n ≤ 32 }
    ensures { result ≡ sha_right a n }
{
    with_carry(0 < a as u64 % (1u64 << n), signed_value(a) >> n)
}
