// PCXI, the Previous Context Information (002, 3.3.3).

ghost use Rattle.std.specs.Prelude.{◌≡◌, ◌<◌, ◌^◌};
ghost use Rattle.fields.specs.Pcxi.{pcxi_pcpn, pcxi_pie, pcxi_ul, pcxi_of};

use crate::link::Link;

// PCPN, bits 31:24.
pub fn priority(pcxi: u32) -> u32
    ensures { result ≡ pcxi_pcpn pcxi }
{
    pcxi / 0x100_0000
}

// PIE, bit 23.
pub fn interrupts(pcxi: u32) -> bool
    ensures { result ≡ pcxi_pie pcxi }
{
    pcxi / 0x80_0000 % 2 == 1
}

// UL, bit 22.
pub fn upper(pcxi: u32) -> bool
    ensures { result ≡ pcxi_ul pcxi }
{
    pcxi / 0x40_0000 % 2 == 1
}

// PCXI after a save of the upper or the lower context into the area that the link names.
#[tactic(auto, using(crate::proofs::Flags::number_is_set), unfolding(crate::specs::Pcxi::pcxi_of))]
pub fn saved(icr: u32, ul: bool, l: Link) -> u32
    requires { l.0 < 2 ^ 20 }
    ensures { result ≡ pcxi_of icr ul l }
{
    icr % 0x100 * 0x100_0000 + icr / 0x100 % 2 * 0x80_0000 + ul as u32 * 0x40_0000 + l.0
}
