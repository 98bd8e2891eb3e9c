// The lesser or the greater of two words.

ghost use Rattle.std.specs.Prelude.{◌≡◌};
ghost use Rattle.compare.specs.Compare.{min_of, minu_of, max_of, maxu_of};

use crate::tests::{less, less_u};

pub fn min(a: u32, b: u32) -> u32
    ensures { result ≡ min_of a b }
{
    if less(a, b) { a } else { b }
}

pub fn min_u(a: u32, b: u32) -> u32
    ensures { result ≡ minu_of a b }
{
    if less_u(a, b) { a } else { b }
}

pub fn max(a: u32, b: u32) -> u32
    ensures { result ≡ max_of a b }
{
    if less(b, a) { a } else { b }
}

pub fn max_u(a: u32, b: u32) -> u32
    ensures { result ≡ maxu_of a b }
{
    if less_u(b, a) { a } else { b }
}
