// CALL and CALLI, SVLCX and BISR.

ghost use Rattle.std.specs.Prelude.{◌≡◌};
ghost use Rattle.memory.specs.Memory.{lent};
ghost use Rattle.acts.specs.Acts.{did, perform_of};
ghost use Rattle.calls.specs.Saves.{called_then, call_of, forbids, lower_then, lower_save_of};

use acts::{How, control_of, settled};
use contexts::context::Half;
use contexts::save::{Saved, save};
use events::trap::{CDO, PRIV};
use fields::depth::{called, overflows};
use memory::address::Address;
use registers::{ICR, PC, PSW, Registers, new_pc};

// What a call sets after its save.
fn set_called(registers: &mut Registers, to: u32, next: u32)
    ensures { registers.new ≡ called_then to next registers.old }
{
    registers.a[11] = next;
    registers.core[PSW] = called(registers.core[PSW]);
    registers.core[PC] = new_pc(to);
}

// CALL and CALLI, to an address.
pub fn call(
    base: Address,
    window: &mut [u8],
    base2: Address,
    window2: &mut [u8],
    registers: &mut Registers,
    to: u32,
    next: u32,
) -> How
    ensures { did result registers.new (lent base window.new base2 window2.new) ≡ perform_of (call_of to next registers.old) registers.old (lent base window.old base2 window2.old) }
{
    if overflows(registers.core[PSW]) {
        return How::Trap(CDO);
    }
    match save(base, window, base2, window2, registers, Half::Upper, 0) {
        Err(s) => How::Stopped(s),
        Ok(Saved::Done) => {
            set_called(registers, to, next);
            How::Done
        }
        Ok(Saved::Depleted) => {
            set_called(registers, to, next);
            How::Depleted
        }
    }
}

// BISR needs Supervisor.
fn is_forbidden(bisr: bool, psw: u32) -> bool
    ensures { result ≡ forbids bisr psw }
{
    bisr && !fields::psw::supervisor(psw)
}

// What SVLCX or BISR sets after its save.
fn set_after(registers: &mut Registers, bisr: bool, imm: u32, next: u32)
    ensures { registers.new ≡ lower_then bisr imm next registers.old }
{
    if bisr {
        registers.core[ICR] = fields::icr::written(registers.core[ICR], true, imm);
    }
    registers.core[PC] = next;
}

// SVLCX and BISR.
pub fn save_lower_half(
    base: Address,
    window: &mut [u8],
    base2: Address,
    window2: &mut [u8],
    registers: &mut Registers,
    bisr: bool,
    imm: u32,
    next: u32,
) -> How
    ensures { did result registers.new (lent base window.new base2 window2.new) ≡ perform_of (lower_save_of bisr imm next registers.old) registers.old (lent base window.old base2 window2.old) }
{
    if is_forbidden(bisr, registers.core[PSW]) {
        return How::Trap(PRIV);
    }
    let before = control_of(&registers.core);
    match save(base, window, base2, window2, registers, Half::Lower, next) {
        Err(s) => How::Stopped(s),
        Ok(Saved::Done) => {
            set_after(registers, bisr, imm, next);
            settled(before, &registers.core)
        }
        Ok(Saved::Depleted) => {
            // an FCD entry finds IE and CCPN as they are set here
            set_after(registers, bisr, imm, next);
            How::Depleted
        }
    }
}
