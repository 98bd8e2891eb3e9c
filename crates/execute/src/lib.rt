// An instruction: what it does, and the entry that may follow it.

#![tactic(auto)]

ghost use Rattle.std.specs.Prelude.{◌≡◌};
ghost use Rattle.memory.specs.Memory.{lent};
ghost use Rattle.image.specs.Fetch.{FieldsHold};
ghost use Rattle.entries.specs.Entry.{made};
ghost use Rattle.acts.specs.Acts.{did, perform_of};
ghost use Rattle.execute.specs.Execute.{act_of, finish_of, execute_of};
ghost use Rattle.execute.specs.Executed.{ending_of, is_steady, stays_steady};

use accesses::load::execute_load;
use accesses::store::execute_store;
use acts::How;
use calls::instructions::execute_context;
use entries::entry::{enter_fcd, trap};
use events::event::{Event, Stop, passed_on};
use image::fetch::Instruction;
use jumps::execute_jump;
use memory::address::Address;
use moves::{execute_integer, execute_move};
use operations::Operation;
use protection::range::Range;
use registers::{PC, Registers};
use system::instructions::execute_system;

// An instruction that is done and leaves ICR, SYSCON and PSW.PRS as they are, or the ending of any other. No `Option`: `None` would read as an instruction that did not end.
#[derive(Clone, Copy)]
pub enum Executed {
    Steady,
    Ended(Result<Event, Stop>),
}

// The ending in either case.
pub fn ending_of(x: Executed) -> Result<Event, Stop>
    ensures { result ≡ ending_of x }
{
    match x {
        Executed::Steady => Ok(Event::Instruction),
        Executed::Ended(e) => e,
    }
}

pub fn steady(x: Executed) -> bool
    ensures { result ≡ is_steady x }
{
    matches!(x, Executed::Steady)
}

// Decides what an instruction does, and performs it.
fn perform(
    base: Address,
    window: &mut [u8],
    base2: Address,
    window2: &mut [u8],
    registers: &mut Registers,
    ranges: &[Range; 32],
    i: Instruction,
) -> How
    requires { FieldsHold i }
    ensures { did result registers.new (lent base window.new base2 window2.new) ≡ perform_of (act_of i registers.old ranges.now (lent base window.old base2 window2.old)) registers.old (lent base window.old base2 window2.old) }
{
    let op = i.op;
    match op {
        Operation::Nop => {
            registers.core[PC] = i.next;
            How::Done
        }
        Operation::Integer(x) => {
            execute_integer(registers, x, i);
            How::Done
        }
        Operation::Move(x) => execute_move(registers, x, i),
        Operation::Load(x) => execute_load(base, window, base2, window2, registers, ranges, x, i),
        Operation::Store(x) => execute_store(base, window, base2, window2, registers, ranges, x, i),
        Operation::Jump(x) => execute_jump(registers, x, i),
        Operation::Context(x) => execute_context(base, window, base2, window2, registers, x, i),
        Operation::System(x) => execute_system(registers, x, i),
    }
}

// The entry that follows, if any.
fn finish(
    base: Address,
    window: &mut [u8],
    base2: Address,
    window2: &mut [u8],
    registers: &mut Registers,
    how: How,
    next: u32,
) -> Result<Event, Stop>
    ensures { made result registers.new (lent base window.new base2 window2.new) ≡ finish_of next how registers.old (lent base window.old base2 window2.old) }
{
    match how {
        How::Done => Ok(Event::Instruction),
        How::Switched => Ok(Event::Instruction),
        How::Depleted => passed_on(enter_fcd(base, window, base2, window2, registers)),
        How::Trap(t) => {
            let pc = registers.core[PC];
            passed_on(trap(base, window, base2, window2, registers, t, pc))
        }
        How::TrapAfter(t) => passed_on(trap(base, window, base2, window2, registers, t, next)),
        How::Stopped(s) => Err(s),
    }
}

// An instruction with its traps.
pub fn execute_instruction(
    base: Address,
    window: &mut [u8],
    base2: Address,
    window2: &mut [u8],
    registers: &mut Registers,
    ranges: &[Range; 32],
    i: Instruction,
) -> Executed
    requires { FieldsHold i }
    ensures performed { made (ending_of result) registers.new (lent base window.new base2 window2.new) ≡ execute_of i registers.old ranges.now (lent base window.old base2 window2.old) }
    ensures steady { is_steady result ≡ stays_steady (ending_of result) registers.old registers.new }
{
    let how = perform(base, window, base2, window2, registers, ranges, i);
    let How::Done = how else {
        return Executed::Ended(finish(base, window, base2, window2, registers, how, i.next));
    };
    Executed::Steady
}
