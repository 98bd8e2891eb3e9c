// SYSCON, the System Configuration Register (002, 3.7.1).

ghost use Rattle.std.specs.Prelude.{◌≡◌};
ghost use Rattle.fields.specs.Syscon.{syscon_proten};

// PROTEN, bit 1.
pub fn protection(syscon: u32) -> bool
    ensures { result ≡ syscon_proten syscon }
{
    syscon / 2 % 2 == 1
}
