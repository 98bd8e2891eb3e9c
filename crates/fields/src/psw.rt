// PSW, the Program Status Word (002, 3.3.2 and Table 8).

ghost use Rattle.std.specs.Prelude.{◌≡◌, ◌+◌, ◌*◌, ◌≤◌, ◌<◌, ◌||◌, eqb};
ghost use Rattle.words.specs.Bits.{number};
ghost use Rattle.fields.specs.Psw.{psw_c, psw_v, psw_sv, psw_prs, psw_is, psw_gw, is_user0, is_supervisor, flagged_of, overflowed_of, reset_of};

// C, bit 31.
pub fn carry(psw: u32) -> bool
    ensures { result ≡ psw_c psw }
{
    psw / 0x8000_0000 % 2 == 1
}

// V, bit 30.
pub fn overflow(psw: u32) -> bool
    ensures { result ≡ psw_v psw }
{
    psw / 0x4000_0000 % 2 == 1
}

// SV, bit 29.
pub fn sticky_overflow(psw: u32) -> bool
    ensures { result ≡ psw_sv psw }
{
    psw / 0x2000_0000 % 2 == 1
}

// PRS, bits 13:12: the protection register set.
pub fn protection_set(psw: u32) -> usize
    ensures { (result ≡ psw_prs psw) × (result < 4) }
{
    (psw / 0x1000 % 4) as usize
}

// IO, bits 11:10, is 0.
pub fn user0(psw: u32) -> bool
    ensures { result ≡ is_user0 psw }
{
    psw / 0x400 % 4 == 0
}

// IO is 2 or 3.
pub fn supervisor(psw: u32) -> bool
    ensures { result ≡ is_supervisor psw }
{
    2 <= psw / 0x400 % 4
}

// IS, bit 9: the interrupt stack is in use.
pub fn interrupt_stack(psw: u32) -> bool
    ensures { result ≡ psw_is psw }
{
    psw / 0x200 % 2 == 1
}

// GW, bit 8: the global address registers may be written.
pub fn global_writes(psw: u32) -> bool
    ensures { result ≡ psw_gw psw }
{
    psw / 0x100 % 2 == 1
}

// PSW with C, V and AV written, SV and SAV sticky.
pub fn with_flags(psw: u32, c: bool, v: bool, av: bool) -> u32
    ensures { result ≡ flagged_of psw c v av }
{
    bit_of(c) * 0x8000_0000
        + sticky(psw / 0x2000_0000 % 2, v) * 0x2000_0000
        + sticky(psw / 0x0800_0000 % 2, av) * 0x0800_0000
        + psw % 0x0800_0000
}

// PSW with V and AV written, SV and SAV sticky, C as it was.
pub fn with_overflow(psw: u32, v: bool, av: bool) -> u32
    ensures { result ≡ overflowed_of psw v av }
{
    with_flags(psw, carry(psw), v, av)
}

// RSTV: V, SV, AV and SAV cleared.
pub fn reset(psw: u32) -> u32
    ensures { result ≡ reset_of psw }
{
    psw / 0x8000_0000 * 0x8000_0000 + psw % 0x0800_0000
}

fn bit_of(flag: bool) -> u32
    ensures { (result ≡ number flag) × (result ≤ 1) }
{
    flag as u32
}

// A flag and the sticky flag below it, as two bits.
fn sticky(old: u32, now: bool) -> u32
    requires { old ≤ 1 }
    ensures { (result ≡ 2 * number now + number (now || eqb old 1)) × (result ≤ 3) }
{
    old | bit_of(now) * 3
}
