// The logical operations, bit by bit (002, 8.1.1.8).

ghost use Rattle.std.specs.Prelude.{◌≡◌};
ghost use Rattle.bitwise.specs.Logical.{and_of, or_of, xor_of, nand_of, nor_of, xnor_of, andn_of, orn_of};

pub fn and(a: u32, b: u32) -> u32
    ensures { result ≡ and_of a b }
{
    a & b
}

pub fn or(a: u32, b: u32) -> u32
    ensures { result ≡ or_of a b }
{
    a | b
}

pub fn xor(a: u32, b: u32) -> u32
    ensures { result ≡ xor_of a b }
{
    a ^ b
}

pub fn nand(a: u32, b: u32) -> u32
    ensures { result ≡ nand_of a b }
{
    !(a & b)
}

pub fn nor(a: u32, b: u32) -> u32
    ensures { result ≡ nor_of a b }
{
    !(a | b)
}

pub fn xnor(a: u32, b: u32) -> u32
    ensures { result ≡ xnor_of a b }
{
    !(a ^ b)
}

pub fn andn(a: u32, b: u32) -> u32
    ensures { result ≡ andn_of a b }
{
    a & !b
}

pub fn orn(a: u32, b: u32) -> u32
    ensures { result ≡ orn_of a b }
{
    a | !b
}
