// LD.B to LD.A.

ghost use Rattle.std.specs.Prelude.{◌≡◌, ◌++◌, ◌<◌, length, IfOk};
ghost use Rattle.memory.specs.Memory.{windows, lent};
ghost use Rattle.registers.specs.Registers.{with_a, with_d};
ghost use Rattle.image.specs.Fetch.{FieldsHold};
ghost use Rattle.protection.specs.declared.range.Right.TheVariants.{Read};
ghost use Rattle.acts.specs.Acts.{ended, ended_of};
ghost use Rattle.accesses.specs.Reach.{reach_of};
ghost use Rattle.accesses.specs.Load.{extend_byte, extend_half, read_by, set_by, load_of};

use crate::reach::{data_address, reach_data};
use acts::How;
use areas::data::load;
use areas::link::spot_at;
use events::trap::Trap;
use image::fetch::Instruction;
use memory::address::Address;
use memory::width::Width;
use operations::Load;
use protection::range::{Range, Right};
use registers::{CORE, PC, PSW, Registers, guarded};

// A byte as a signed word.
#[tactic(auto, unfolding(crate::specs::Load::extend_byte))]
fn signed_byte(b: u32) -> u32
    requires { b < 0x100 }
    ensures { result ≡ extend_byte b }
{
    if b < 0x80 {
        return b;
    }
    b + 0xFFFF_FF00
}

// A halfword as a signed word.
#[tactic(auto, unfolding(crate::specs::Load::extend_half))]
fn signed_half(h: u32) -> u32
    requires { h < 0x1_0000 }
    ensures { result ≡ extend_half h }
{
    if h < 0x8000 {
        return h;
    }
    h + 0xFFFF_0000
}

// The data at an address, or the trap that the access takes.
#[inline(always)]
fn read<W: Width>(
    base: Address,
    window: &[u8],
    base2: Address,
    window2: &[u8],
    core: &[u32; CORE],
    ranges: &[Range; 32],
    guarded: bool,
    alignment: u32,
    address: Address,
) -> Result<u32, Trap>
    requires { 0 < alignment }
    ensures value { result ≡ read_by W.read (window.now ++ window2.now) (reach_of (windows base (length window.now) base2) (length (window.now ++ window2.now)) core.now ranges.now Read guarded W.SIZE alignment address) }
    ensures below { IfOk result (λ value. value < W.limit) }
{
    reach_data(
        base,
        window,
        base2,
        window2,
        core,
        ranges,
        Right::Read,
        guarded,
        W::SIZE,
        alignment,
        address,
    )?;
    let at = spot_at(base, window, base2, window2, W::SIZE, address);
    Ok(load::<W>(window, window2, at))
}

// Writes what was read to D[c], with the next PC.
fn put_data(loaded: Result<u32, Trap>, registers: &mut Registers, c: usize, next: u32) -> How
    requires { c < 16 }
    ensures { ended result registers.new ≡ ended_of (set_by (with_d c) next registers.old loaded) registers.old }
{
    match loaded {
        Err(t) => How::Trap(t),
        Ok(value) => {
            registers.d[c] = value;
            registers.core[PC] = next;
            How::Done
        }
    }
}

// Writes what was read to A[c], with the next PC.
fn put_address(loaded: Result<u32, Trap>, registers: &mut Registers, c: usize, next: u32) -> How
    requires { c < 16 }
    ensures { ended result registers.new ≡ ended_of (set_by (with_a c) next registers.old loaded) registers.old }
{
    match loaded {
        Err(t) => How::Trap(t),
        Ok(value) => {
            registers.a[c] = value;
            registers.core[PC] = next;
            How::Done
        }
    }
}

// A load. Each operation has an arm of its own, with its width and alignment as constants.
pub fn execute_load(
    base: Address,
    window: &[u8],
    base2: Address,
    window2: &[u8],
    registers: &mut Registers,
    ranges: &[Range; 32],
    op: Load,
    i: Instruction,
) -> How
    requires { FieldsHold i }
    ensures { ended result registers.new ≡ ended_of (load_of op i registers.old ranges.now (lent base window.now base2 window2.now)) registers.old }
{
    let c = i.c;
    let x = i.a;
    let source = data_address(registers.a[x], i.imm);
    let core = &registers.core;
    let loaded = match op {
        Load::LdB => {
            let byte = read::<u8>(base, window, base2, window2, core, ranges, false, 1, source);
            byte.map(signed_byte)
        }
        Load::LdBu => read::<u8>(base, window, base2, window2, core, ranges, false, 1, source),
        Load::LdH => {
            let half = read::<u16>(base, window, base2, window2, core, ranges, false, 2, source);
            half.map(signed_half)
        }
        Load::LdHu => read::<u16>(base, window, base2, window2, core, ranges, false, 2, source),
        Load::LdW => read::<u32>(base, window, base2, window2, core, ranges, false, 2, source),
        Load::LdA => {
            let guard = guarded(core[PSW], c);
            let word = read::<u32>(base, window, base2, window2, core, ranges, guard, 4, source);
            return put_address(word, registers, c, i.next);
        }
    };
    put_data(loaded, registers, c, i.next)
}
