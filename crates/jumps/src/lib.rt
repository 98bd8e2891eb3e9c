// The jumps and LOOP.

#![tactic(auto)]

ghost use Rattle.std.specs.Prelude.{◌≡◌, true, ◌<◌};
ghost use Rattle.registers.specs.Registers.{registers};
ghost use Rattle.operations.specs.Operations.{jump_compares};
ghost use Rattle.image.specs.Fetch.{FieldsHold};
ghost use Rattle.acts.specs.Acts.{ended, ended_of};
ghost use Rattle.jumps.specs.Jumps.{target_of, branch_of, holds, compare_of, loop_of, jump_of};

use acts::How;
use compare::tests::{equal, less, less_u};
use events::trap::GRWP;
use image::fetch::Instruction;
use operations::Jump;
use registers::{PC, PSW, Registers, guarded, minus, new_pc, plus};

// The jump to PC plus the immediate.
fn destination(pc: u32, imm: u32) -> u32
    ensures { result ≡ target_of pc imm }
{
    new_pc(plus(pc, imm))
}

// The new PC of a conditional jump.
fn branch(taken: bool, pc: u32, imm: u32, next: u32) -> u32
    ensures { result ≡ branch_of taken pc imm next }
{
    if taken {
        return destination(pc, imm);
    }
    next
}

// Whether a conditional jump is taken.
fn condition(op: Jump, x: u32, y: u32) -> bool
    ensures { result ≡ holds op x y }
{
    match op {
        Jump::J => true,
        Jump::Jl => true,
        Jump::Ji => true,
        Jump::Jeq => equal(x, y),
        Jump::Jne => !equal(x, y),
        Jump::Jlt => less(x, y),
        Jump::JltU => less_u(x, y),
        Jump::Jge => !less(x, y),
        Jump::JgeU => !less_u(x, y),
        Jump::Loop => true,
    }
}

fn compare_and_jump(registers: &mut Registers, op: Jump, i: Instruction) -> How
    requires { (i.a < 16) × (i.b < 16) }
    ensures { ended result registers.new ≡ ended_of (compare_of op i registers.old) registers.old }
{
    let x = i.a;
    let y = i.b;
    let taken = condition(op, registers.d[x], registers.d[y]);
    registers.core[PC] = branch(taken, registers.core[PC], i.imm, i.next);
    How::Done
}

fn execute_loop(registers: &mut Registers, i: Instruction) -> How
    requires { FieldsHold i }
    ensures { ended result registers.new ≡ ended_of (loop_of i registers.old) registers.old }
{
    let x = i.a;
    if guarded(registers.core[PSW], x) {
        return How::Trap(GRWP);
    }
    let count = registers.a[x];
    registers.a[x] = minus(count, 1);
    registers.core[PC] = branch(!equal(count, 0), registers.core[PC], i.imm, i.next);
    How::Done
}

// J to LOOP. A jump that compares has no immediate for an operand: rule 3 refuses b = 16.
pub fn execute_jump(registers: &mut Registers, op: Jump, i: Instruction) -> How
    requires { FieldsHold i × (jump_compares op ≡ true → i.b < 16) }
    ensures { ended result registers.new ≡ ended_of (jump_of op i registers.old) registers.old }
{
    match op {
        Jump::J => {
            registers.core[PC] = destination(registers.core[PC], i.imm);
            How::Done
        }
        Jump::Jl => {
            registers.a[11] = i.next;
            registers.core[PC] = destination(registers.core[PC], i.imm);
            How::Done
        }
        Jump::Ji => {
            let x = i.a;
            registers.core[PC] = new_pc(registers.a[x]);
            How::Done
        }
        Jump::Jeq => compare_and_jump(registers, op, i),
        Jump::Jne => compare_and_jump(registers, op, i),
        Jump::Jlt => compare_and_jump(registers, op, i),
        Jump::JltU => compare_and_jump(registers, op, i),
        Jump::Jge => compare_and_jump(registers, op, i),
        Jump::JgeU => compare_and_jump(registers, op, i),
        Jump::Loop => execute_loop(registers, i),
    }
}
