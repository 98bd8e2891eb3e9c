// Absolute value and absolute difference (002, 8.1.1.5).

ghost use Rattle.std.specs.Prelude.{◌≡◌, ◌<◌, ◌^◌, pos, nat_abs};
ghost use Rattle.std.specs.Int.Signed.{mag};
ghost use Rattle.arithmetic.specs.Arithmetic.{abs_of, absdif_of};

use words::result::{Flagged, wrapped};
use words::value::{difference, signed_value};

pub fn abs(a: u32) -> Flagged
    ensures { result ≡ abs_of a }
{
    wrapped(magnitude(signed_value(a)))
}

pub fn absdif(a: u32, b: u32) -> Flagged
    ensures { result ≡ absdif_of a b }
{
    wrapped(magnitude(difference(a, b)))
}

// The distance of z from 0.
fn magnitude(z: i64) -> i64
    requires { mag z < 2 ^ 62 }
    ensures { result ≡ pos (nat_abs z) }
{
    if z < 0 { 0 - z } else { z }
}
