// The tests. The conditional jumps use the three that answer a bool.

ghost use Rattle.std.specs.Prelude.{◌≡◌};
ghost use Rattle.compare.specs.Compare.{equals, less_signed, less_unsigned, eq_of, ne_of, lt_of, ltu_of, ge_of, geu_of};

use words::value::signed_value;

pub fn equal(a: u32, b: u32) -> bool
    ensures { result ≡ equals a b }
{
    a == b
}

pub fn less(a: u32, b: u32) -> bool
    ensures { result ≡ less_signed a b }
{
    signed_value(a) < signed_value(b)
}

pub fn less_u(a: u32, b: u32) -> bool
    ensures { result ≡ less_unsigned a b }
{
    a < b
}

pub fn eq(a: u32, b: u32) -> u32
    ensures { result ≡ eq_of a b }
{
    equal(a, b) as u32
}

pub fn ne(a: u32, b: u32) -> u32
    ensures { result ≡ ne_of a b }
{
    !equal(a, b) as u32
}

pub fn lt(a: u32, b: u32) -> u32
    ensures { result ≡ lt_of a b }
{
    less(a, b) as u32
}

pub fn lt_u(a: u32, b: u32) -> u32
    ensures { result ≡ ltu_of a b }
{
    less_u(a, b) as u32
}

pub fn ge(a: u32, b: u32) -> u32
    ensures { result ≡ ge_of a b }
{
    !less(a, b) as u32
}

pub fn ge_u(a: u32, b: u32) -> u32
    ensures { result ≡ geu_of a b }
{
    !less_u(a, b) as u32
}
