// An address counts bytes of memory.

ghost use Rattle.std.specs.Prelude.{◌≡◌};
ghost use Rattle.memory.specs.Address.{as_address};

#[derive(Clone, Copy)]
pub struct Address(pub u32);

// The address that a word is: the one place where a word becomes an address.
pub fn as_address(word: u32) -> Address
    ensures { result ≡ as_address word }
{
    Address(word)
}
