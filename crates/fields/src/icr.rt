// ICR, the Interrupt Control Register (002, 3.6.1).

ghost use Rattle.std.specs.Prelude.{◌≡◌};
ghost use Rattle.fields.specs.Icr.{icr_ie, icr_ccpn, icr_of};

// IE, bit 8.
pub fn enabled(icr: u32) -> bool
    ensures { result ≡ icr_ie icr }
{
    icr / 0x100 % 2 == 1
}

// CCPN, bits 7:0.
pub fn priority(icr: u32) -> u32
    ensures { result ≡ icr_ccpn icr }
{
    icr % 0x100
}

// ICR with IE and CCPN written.
#[tactic(auto, unfolding(crate::specs::Icr::icr_of))]
pub fn written(icr: u32, ie: bool, ccpn: u32) -> u32
    ensures { result ≡ icr_of icr ie ccpn }
{
    icr / 0x200 * 0x200 + ie as u32 * 0x100 + ccpn % 0x100
}
