// The instructions that write one register: the integer operations, and the moves and the arithmetic of address registers.

#![tactic(auto)]

ghost use Rattle.std.specs.Prelude.{◌≡◌, ◌<◌};
ghost use Rattle.registers.specs.Registers.{registers};
ghost use Rattle.image.specs.Fetch.{FieldsHold};
ghost use Rattle.acts.specs.Acts.{ended, ended_of};
ghost use Rattle.moves.specs.Moves.{integer_of, address_write, move_of};

use acts::How;
use events::trap::GRWP;
use image::fetch::Instruction;
use integer::{Integer, compute};
use operations::Move;
use registers::{PC, PSW, Registers, guarded, minus, plus, second};

// An integer operation: D[c] and PSW.
pub fn execute_integer(registers: &mut Registers, op: Integer, i: Instruction)
    requires { FieldsHold i }
    ensures { registers.new ≡ integer_of op i registers.old }
{
    let c = i.c;
    let x = i.a;
    let r = compute(
        op,
        registers.d[x],
        second(&registers.d, i.b, i.imm),
        registers.core[PSW],
    );
    registers.d[c] = r.word;
    registers.core[PSW] = r.psw;
    registers.core[PC] = i.next;
}

// Writes address register c, which GW guards.
fn write_address(registers: &mut Registers, c: usize, value: u32, next: u32) -> How
    requires { c < 16 }
    ensures { ended result registers.new ≡ ended_of (address_write c value next registers.old) registers.old }
{
    if guarded(registers.core[PSW], c) {
        return How::Trap(GRWP);
    }
    registers.a[c] = value;
    registers.core[PC] = next;
    How::Done
}

// MOV.A, MOV.D, MOV.AA, ADD.A, SUB.A.
pub fn execute_move(registers: &mut Registers, op: Move, i: Instruction) -> How
    requires { FieldsHold i }
    ensures { ended result registers.new ≡ ended_of (move_of op i registers.old) registers.old }
{
    let c = i.c;
    let x = i.a;
    match op {
        Move::MovA => {
            let value = second(&registers.d, i.b, i.imm);
            write_address(registers, c, value, i.next)
        }
        Move::MovD => {
            registers.d[c] = registers.a[x];
            registers.core[PC] = i.next;
            How::Done
        }
        Move::MovAa => {
            let value = registers.a[x];
            write_address(registers, c, value, i.next)
        }
        Move::AddA => {
            let value = plus(registers.a[x], second(&registers.a, i.b, i.imm));
            write_address(registers, c, value, i.next)
        }
        Move::SubA => {
            let value = minus(registers.a[x], second(&registers.a, i.b, i.imm));
            write_address(registers, c, value, i.next)
        }
    }
}
