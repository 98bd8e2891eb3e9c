// RET, RFE and RSLCX.

ghost use Rattle.std.specs.Prelude.{◌≡◌};
ghost use Rattle.memory.specs.Memory.{lent};
ghost use Rattle.acts.specs.Acts.{did, perform_of};
ghost use Rattle.calls.specs.Returns.{is_of, previous_of, ret_of, rfe_of, rslcx_of};

use acts::{How, control_of, settled};
use contexts::context::Half;
use contexts::restore::restore;
use events::trap::{CDU, CSU, CTYP, NEST, Trap};
use fields::depth::{in_call, underflows};
use fields::link::link_of;
use fields::pcxi;
use memory::address::Address;
use registers::{ICR, PC, PCXI, PSW, Registers, new_pc};

// Whether PCXI.UL is that of the half.
fn is_of(half: Half, word: u32) -> bool
    ensures { result ≡ is_of half word }
{
    match half {
        Half::Upper => pcxi::upper(word),
        Half::Lower => !pcxi::upper(word),
    }
}

// Whether there is a context of that half to return to, or the trap that a return takes.
fn previous_context(word: u32, half: Half) -> Result<(), Trap>
    ensures { result ≡ previous_of half word }
{
    let l = link_of(word);
    if l.0 == 0 {
        return Err(CSU);
    }
    if is_of(half, word) {
        return Ok(());
    }
    Err(CTYP)
}

pub fn ret(
    base: Address,
    window: &mut [u8],
    base2: Address,
    window2: &mut [u8],
    registers: &mut Registers,
) -> How
    ensures { did result registers.new (lent base window.new base2 window2.new) ≡ perform_of (ret_of registers.old) registers.old (lent base window.old base2 window2.old) }
{
    if underflows(registers.core[PSW]) {
        return How::Trap(CDU);
    }
    if let Err(t) = previous_context(registers.core[PCXI], Half::Upper) {
        return How::Trap(t);
    }
    let to = new_pc(registers.a[11]);
    let before = control_of(&registers.core);
    match restore(base, window, base2, window2, registers, Half::Upper) {
        Err(s) => How::Stopped(s),
        Ok(()) => {
            registers.core[PC] = to;
            settled(before, &registers.core)
        }
    }
}

// Not inlined: with it in the run's loop, loops without a return come out longer.
#[inline(never)]
pub fn rfe(
    base: Address,
    window: &mut [u8],
    base2: Address,
    window2: &mut [u8],
    registers: &mut Registers,
) -> How
    ensures { did result registers.new (lent base window.new base2 window2.new) ≡ perform_of (rfe_of registers.old) registers.old (lent base window.old base2 window2.old) }
{
    if let Err(t) = previous_context(registers.core[PCXI], Half::Upper) {
        return How::Trap(t);
    }
    if in_call(registers.core[PSW]) {
        return How::Trap(NEST);
    }
    let to = new_pc(registers.a[11]);
    let icr = fields::icr::written(
        registers.core[ICR],
        pcxi::interrupts(registers.core[PCXI]),
        pcxi::priority(registers.core[PCXI]),
    );
    let before = control_of(&registers.core);
    match restore(base, window, base2, window2, registers, Half::Upper) {
        Err(s) => How::Stopped(s),
        Ok(()) => {
            registers.core[ICR] = icr;
            registers.core[PC] = to;
            settled(before, &registers.core)
        }
    }
}

pub fn rslcx(
    base: Address,
    window: &mut [u8],
    base2: Address,
    window2: &mut [u8],
    registers: &mut Registers,
    next: u32,
) -> How
    ensures { did result registers.new (lent base window.new base2 window2.new) ≡ perform_of (rslcx_of next registers.old) registers.old (lent base window.old base2 window2.old) }
{
    if let Err(t) = previous_context(registers.core[PCXI], Half::Lower) {
        return How::Trap(t);
    }
    match restore(base, window, base2, window2, registers, Half::Lower) {
        Err(s) => How::Stopped(s),
        Ok(()) => {
            registers.core[PC] = next;
            How::Done
        }
    }
}
