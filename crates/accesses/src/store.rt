// ST.B to ST.A.

ghost use Rattle.std.specs.Prelude.{◌≡◌, ◌++◌, ◌<◌, length, false};
ghost use Rattle.memory.specs.Memory.{windows, lent};
ghost use Rattle.image.specs.Fetch.{FieldsHold};
ghost use Rattle.protection.specs.declared.range.Right.TheVariants.{Write};
ghost use Rattle.acts.specs.Acts.{did, ended, ended_of, perform_of};
ghost use Rattle.accesses.specs.Reach.{reach_of};
ghost use Rattle.accesses.specs.Store.{reached, written_by, end_by, store_of};

use crate::reach::{data_address, reach_data};
use acts::How;
use areas::data::store;
use areas::link::spot_at;
use events::trap::Trap;
use image::fetch::Instruction;
use memory::address::Address;
use memory::width::Width;
use operations::Store;
use protection::range::{Range, Right};
use registers::{CORE, PC, Registers};

// Writes the low bytes of a register's value at an address, or answers the trap that the access takes.
#[inline(always)]
fn write<W: Width>(
    base: Address,
    window: &mut [u8],
    base2: Address,
    window2: &mut [u8],
    core: &[u32; CORE],
    ranges: &[Range; 32],
    alignment: u32,
    address: Address,
    value: u32,
) -> Result<(), Trap>
    requires { 0 < alignment }
    ensures value { result ≡ reached (reach_of (windows base (length window.old) base2) (length (window.old ++ window2.old)) core.now ranges.now Write false W.SIZE alignment address) }
    ensures written { window.new ++ window2.new ≡ written_by W.put value (window.old ++ window2.old) (reach_of (windows base (length window.old) base2) (length (window.old ++ window2.old)) core.now ranges.now Write false W.SIZE alignment address) }
    ensures length_kept { length window.new ≡ length window.old }
{
    reach_data(
        base,
        window,
        base2,
        window2,
        core,
        ranges,
        Right::Write,
        false,
        W::SIZE,
        alignment,
        address,
    )?;
    let at = spot_at(base, window, base2, window2, W::SIZE, address);
    store::<W>(window, window2, at, value);
    Ok(())
}

// Ends a store: with the trap, or at the next PC.
fn end_store(written: Result<(), Trap>, registers: &mut Registers, next: u32) -> How
    ensures { ended result registers.new ≡ ended_of (end_by next registers.old written) registers.old }
{
    match written {
        Err(t) => How::Trap(t),
        Ok(()) => {
            registers.core[PC] = next;
            How::Done
        }
    }
}

// A store. Each operation has an arm of its own, with its width and alignment as constants.
pub fn execute_store(
    base: Address,
    window: &mut [u8],
    base2: Address,
    window2: &mut [u8],
    registers: &mut Registers,
    ranges: &[Range; 32],
    op: Store,
    i: Instruction,
) -> How
    requires { FieldsHold i }
    ensures { did result registers.new (lent base window.new base2 window2.new) ≡ perform_of (store_of op i registers.old ranges.now (lent base window.old base2 window2.old)) registers.old (lent base window.old base2 window2.old) }
{
    let c = i.c;
    let x = i.a;
    let target = data_address(registers.a[x], i.imm);
    let core = &registers.core;
    let d = registers.d[c];
    let a = registers.a[c];
    let written = match op {
        Store::StB => write::<u8>(base, window, base2, window2, core, ranges, 1, target, d),
        Store::StH => write::<u16>(base, window, base2, window2, core, ranges, 2, target, d),
        Store::StW => write::<u32>(base, window, base2, window2, core, ranges, 2, target, d),
        Store::StA => write::<u32>(base, window, base2, window2, core, ranges, 4, target, a),
    };
    end_store(written, registers, i.next)
}
