// The core registers by their offsets, as MFCR and MTCR name them.

ghost use Rattle.std.specs.Prelude.{◌≡◌};
ghost use Rattle.system.specs.CoreRegisters.{named_of, Known, core_at, written_of};

use registers::{BIV, BTV, CORE, FCX, ICR, ISP, LCX, PC, PCXI, PSW, SYSCON};

// What an offset names.
#[derive(Clone, Copy)]
pub enum Named {
    Pc,
    // any other, by its index
    Register(usize),
}

fn named_at(offset: u32) -> Option<Named>
    ensures { (result ≡ named_of offset) × Known result }
{
    match offset {
        0xFE00 => Some(Named::Register(PCXI)),
        0xFE04 => Some(Named::Register(PSW)),
        0xFE08 => Some(Named::Pc),
        0xFE14 => Some(Named::Register(SYSCON)),
        0xFE20 => Some(Named::Register(BIV)),
        0xFE24 => Some(Named::Register(BTV)),
        0xFE28 => Some(Named::Register(ISP)),
        0xFE2C => Some(Named::Register(ICR)),
        0xFE38 => Some(Named::Register(FCX)),
        0xFE3C => Some(Named::Register(LCX)),
        _ => None,
    }
}

// The core register at an offset; 0 where there is none.
pub fn read_core(core: &[u32; CORE], offset: u32) -> u32
    ensures { result ≡ core_at core.now offset }
{
    match named_at(offset) {
        Some(Named::Pc) => core[PC],
        Some(Named::Register(k)) => core[k],
        None => 0,
    }
}

// Writes the core register at an offset; PC is read only.
pub fn write_core(core: &mut [u32; CORE], offset: u32, value: u32)
    ensures { core.new ≡ written_of core.old offset value }
{
    match named_at(offset) {
        Some(Named::Pc) => {}
        Some(Named::Register(k)) => {
            core[k] = value;
        }
        None => {}
    }
}
