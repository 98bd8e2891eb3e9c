// The sixteen words of a context, in the order of Figure 3 read upward.

ghost use Rattle.std.specs.Prelude.{◌≡◌};
ghost use Rattle.contexts.specs.Context.{ul_of, upper_of, lower_of, context_of};

use registers::{PCXI, PSW, Registers};

#[derive(Clone, Copy)]
pub enum Half {
    Upper,
    Lower,
}

// PCXI.UL for a half.
pub fn ul(half: Half) -> bool
    ensures { result ≡ ul_of half }
{
    match half {
        Half::Upper => true,
        Half::Lower => false,
    }
}

// The upper context: PCXI, PSW, A10 to A15, D8 to D15.
pub fn upper(registers: &Registers) -> [u32; 16]
    ensures { result ≡ upper_of registers.now }
{
    let Registers { d, a, core } = registers;
    [
        core[PCXI], core[PSW], a[10], a[11], a[12], a[13], a[14], a[15], d[8], d[9], d[10], d[11],
        d[12], d[13], d[14], d[15],
    ]
}

// The lower context: PCXI, the saved PC, A2 to A7, D0 to D7.
pub fn lower(registers: &Registers, pc: u32) -> [u32; 16]
    ensures { result ≡ lower_of pc registers.now }
{
    let Registers { d, a, core } = registers;
    [
        core[PCXI], pc, a[2], a[3], a[4], a[5], a[6], a[7], d[0], d[1], d[2], d[3], d[4], d[5],
        d[6], d[7],
    ]
}

// The context of a half, with the saved PC of a lower one. Inlined, as saves and returns are: their callers give the half as a constant.
#[inline(always)]
pub fn context(registers: &Registers, half: Half, pc: u32) -> [u32; 16]
    ensures { result ≡ context_of half pc registers.now }
{
    match half {
        Half::Upper => upper(registers),
        Half::Lower => lower(registers, pc),
    }
}
