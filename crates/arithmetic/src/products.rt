// Multiplication (002, 8.1.1.3).

ghost use Rattle.std.specs.Prelude.{◌≡◌};
ghost use Rattle.arithmetic.specs.Arithmetic.{mul_of};

use words::result::{Flagged, wrapped};
use words::value::product;

pub fn mul(a: u32, b: u32) -> Flagged
    ensures { result ≡ mul_of a b }
{
    wrapped(product(a, b))
}
