// Addition and subtraction with saturation (002, 8.1).

ghost use Rattle.std.specs.Prelude.{◌≡◌};
ghost use Rattle.arithmetic.specs.Arithmetic.{adds_of, addsu_of, subs_of, subsu_of};

use words::result::{Flagged, LARGEST, LEAST, saturated};
use words::value::{difference, sum};

// The largest unsigned word.
const LARGEST_UNSIGNED: i64 = 0xFFFF_FFFF;

pub fn adds(a: u32, b: u32) -> Flagged
    ensures { result ≡ adds_of a b }
{
    saturated(LEAST, LARGEST, sum(a, b))
}

pub fn adds_u(a: u32, b: u32) -> Flagged
    ensures { result ≡ addsu_of a b }
{
    saturated(0, LARGEST_UNSIGNED, a as i64 + b as i64)
}

pub fn subs(a: u32, b: u32) -> Flagged
    ensures { result ≡ subs_of a b }
{
    saturated(LEAST, LARGEST, difference(a, b))
}

pub fn subs_u(a: u32, b: u32) -> Flagged
    ensures { result ≡ subsu_of a b }
{
    saturated(0, LARGEST_UNSIGNED, a as i64 - b as i64)
}
