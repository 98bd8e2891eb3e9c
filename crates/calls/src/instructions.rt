// CALL to SYSCALL.

ghost use Rattle.std.specs.Prelude.{◌≡◌, true, false};
ghost use Rattle.memory.specs.Memory.{lent};
ghost use Rattle.registers.specs.Registers.{A, pc, plus_of};
ghost use Rattle.image.specs.Fetch.{FieldsHold};
ghost use Rattle.acts.specs.Acts.{did, perform_of};
ghost use Rattle.calls.specs.Instructions.{context_op};

use crate::returns::{ret, rfe, rslcx};
use crate::saves::{call, save_lower_half};
use acts::{How, passed_on};
use events::trap::system_call;
use image::fetch::Instruction;
use memory::address::Address;
use operations::Context;
use registers::{PC, Registers, plus};

// Where a call goes: CALLI to A[a] as before the step, CALL to PC plus immediate.
fn target(registers: &Registers, op: Context, i: Instruction) -> u32
    requires { FieldsHold i }
    ensures { (op ≡ Context.Calli → result ≡ A registers.now i.a) × ((op ≡ Context.Calli → ⊥) → result ≡ plus_of (pc registers.now) i.imm) }
{
    let x = i.a;
    match op {
        Context::Calli => registers.a[x],
        _ => plus(registers.core[PC], i.imm),
    }
}

fn is_bisr(op: Context) -> bool
    ensures { (op ≡ Context.Bisr → result ≡ true) × ((op ≡ Context.Bisr → ⊥) → result ≡ false) }
{
    matches!(op, Context::Bisr)
}

// CALL and CALLI have one call between them, and so have SVLCX and BISR: a function with one caller is compiled into it. What is passed on stays in registers.
pub fn execute_context(
    base: Address,
    window: &mut [u8],
    base2: Address,
    window2: &mut [u8],
    registers: &mut Registers,
    op: Context,
    i: Instruction,
) -> How
    requires { FieldsHold i }
    ensures { did result registers.new (lent base window.new base2 window2.new) ≡ perform_of (context_op op i registers.old) registers.old (lent base window.old base2 window2.old) }
{
    match op {
        Context::Call | Context::Calli => {
            let to = target(registers, op, i);
            passed_on(call(base, window, base2, window2, registers, to, i.next))
        }
        Context::Ret => passed_on(ret(base, window, base2, window2, registers)),
        Context::Rfe => rfe(base, window, base2, window2, registers),
        Context::Svlcx | Context::Bisr => passed_on(save_lower_half(
            base,
            window,
            base2,
            window2,
            registers,
            is_bisr(op),
            i.imm,
            i.next,
        )),
        Context::Rslcx => passed_on(rslcx(base, window, base2, window2, registers, i.next)),
        Context::Syscall => How::TrapAfter(system_call(i.imm)),
    }
}
