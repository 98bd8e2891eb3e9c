// A service request control register (002, 5.1, Figure 39).

ghost use Rattle.std.specs.Prelude.{◌≡◌};
ghost use Rattle.fields.specs.Request.{src_srpn, requests, cleared_of};

// SRPN, bits 7:0.
pub fn priority(src: u32) -> u8
    ensures { result ≡ src_srpn src }
{
    (src % 0x100) as u8
}

// SRE, bit 9, and SR, bit 10, are 1.
#[tactic(auto, unfolding(crate::specs::Request::requests, crate::specs::Field::is_set, words::specs::Bits::bit))]
pub fn pending(src: u32) -> bool
    ensures { result ≡ requests src }
{
    src / 0x200 % 2 == 1 && src / 0x400 % 2 == 1
}

// SR is 0.
pub fn cleared(src: u32) -> u32
    ensures { result ≡ cleared_of src }
{
    src / 0x800 * 0x800 + src % 0x400
}
