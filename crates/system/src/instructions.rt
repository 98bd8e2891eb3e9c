// ENABLE to RSTV.

ghost use Rattle.std.specs.Prelude.{◌≡◌};
ghost use Rattle.registers.specs.Registers.{registers};
ghost use Rattle.image.specs.Fetch.{FieldsHold};
ghost use Rattle.acts.specs.Acts.{ended, ended_of};
ghost use Rattle.system.specs.Instructions.{enable_of, system_of};

use crate::core_registers::{read_core, write_core};
use acts::{How, control_of, settled};
use events::trap::{OVF, PRIV, SOVF};
use fields::psw;
use image::fetch::Instruction;
use operations::System;
use registers::{ICR, PC, PSW, Registers};

// ENABLE and DISABLE: IE.
fn set_enable(registers: &mut Registers, ie: bool, next: u32) -> How
    ensures { ended result registers.new ≡ ended_of (enable_of ie next registers.old) registers.old }
{
    if psw::user0(registers.core[PSW]) {
        return How::Trap(PRIV);
    }
    let before = control_of(&registers.core);
    registers.core[ICR] = fields::icr::written(
        registers.core[ICR],
        ie,
        fields::icr::priority(registers.core[ICR]),
    );
    registers.core[PC] = next;
    settled(before, &registers.core)
}

pub fn execute_system(registers: &mut Registers, op: System, i: Instruction) -> How
    requires { FieldsHold i }
    ensures { ended result registers.new ≡ ended_of (system_of op i registers.old) registers.old }
{
    match op {
        System::Enable => set_enable(registers, true, i.next),
        System::Disable => set_enable(registers, false, i.next),
        System::Mfcr => {
            let c = i.c;
            registers.d[c] = read_core(&registers.core, i.imm);
            registers.core[PC] = i.next;
            How::Done
        }
        System::Mtcr => {
            if !psw::supervisor(registers.core[PSW]) {
                return How::Trap(PRIV);
            }
            let x = i.a;
            let before = control_of(&registers.core);
            write_core(&mut registers.core, i.imm, registers.d[x]);
            registers.core[PC] = i.next;
            settled(before, &registers.core)
        }
        System::Trapv => {
            if psw::overflow(registers.core[PSW]) {
                return How::TrapAfter(OVF);
            }
            registers.core[PC] = i.next;
            How::Done
        }
        System::Trapsv => {
            if psw::sticky_overflow(registers.core[PSW]) {
                return How::TrapAfter(SOVF);
            }
            registers.core[PC] = i.next;
            How::Done
        }
        System::Rstv => {
            registers.core[PSW] = psw::reset(registers.core[PSW]);
            registers.core[PC] = i.next;
            How::Done
        }
    }
}
