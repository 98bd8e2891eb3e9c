// Addition and subtraction, without and with the carry (002, 8.1.1.2).

ghost use Rattle.std.specs.Prelude.{◌≡◌};
ghost use Rattle.arithmetic.specs.Arithmetic.{add_of, sub_of, rsub_of, addx_of, addc_of, subx_of, subc_of};

use words::result::{Carried, Flagged, with_carry, wrapped};
use words::value::{difference, sum};

pub fn add(a: u32, b: u32) -> Flagged
    ensures { result ≡ add_of a b }
{
    wrapped(sum(a, b))
}

pub fn sub(a: u32, b: u32) -> Flagged
    ensures { result ≡ sub_of a b }
{
    wrapped(difference(a, b))
}

pub fn rsub(a: u32, b: u32) -> Flagged
    ensures { result ≡ rsub_of a b }
{
    wrapped(difference(b, a))
}

pub fn addc(a: u32, b: u32, c: bool) -> Carried
    ensures { result ≡ addc_of a b c }
{
    let k = c as u64;
    with_carry(
        0x1_0000_0000 <= a as u64 + b as u64 + k,
        sum(a, b) + k as i64,
    )
}

pub fn subc(a: u32, b: u32, c: bool) -> Carried
    ensures { result ≡ subc_of a b c }
{
    let k = c as u64;
    with_carry(
        b as u64 + 1 <= a as u64 + k,
        difference(a, b) - 1 + k as i64,
    )
}

pub fn addx(a: u32, b: u32) -> Carried
    ensures { result ≡ addx_of a b }
{
    with_carry(0x1_0000_0000 <= a as u64 + b as u64, sum(a, b))
}

pub fn subx(a: u32, b: u32) -> Carried
    ensures { result ≡ subx_of a b }
{
    with_carry(b <= a, difference(a, b))
}
