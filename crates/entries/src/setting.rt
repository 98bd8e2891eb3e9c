// What an entry sets in the registers.

ghost use Rattle.std.specs.Prelude.{◌≡◌};
ghost use Rattle.entries.specs.Entry.{stack_of, entered_of, trap_entry, interrupt_entry};

use events::trap::Trap;
use registers::{BIV, BTV, ICR, ISP, PC, PSW, Registers, new_pc};

// A10 on an entry: ISP where the interrupt stack was not in use.
fn stack(sp: u32, psw: u32, isp: u32) -> u32
    ensures { result ≡ stack_of sp psw isp }
{
    if fields::psw::interrupt_stack(psw) {
        return sp;
    }
    isp
}

// A10, A11 and PSW, of any entry.
fn enter(registers: &mut Registers, back: u32)
    ensures { registers.new ≡ entered_of back registers.old }
{
    registers.a[10] = stack(registers.a[10], registers.core[PSW], registers.core[ISP]);
    registers.a[11] = back;
    registers.core[PSW] = 0xA80;
}

// The entry of a trap, with the return address.
pub fn enter_trap(registers: &mut Registers, t: Trap, back: u32)
    ensures { registers.new ≡ trap_entry t back registers.old }
{
    enter(registers, back);
    registers.core[ICR] = fields::icr::written(
        registers.core[ICR],
        false,
        fields::icr::priority(registers.core[ICR]),
    );
    registers.d[15] = t.tin as u32;
    registers.core[PC] = new_pc(registers.core[BTV] | t.class as u32 * 32);
}

// The entry of an interrupt with a priority number.
pub fn enter_interrupt(registers: &mut Registers, level: u8)
    ensures { registers.new ≡ interrupt_entry level registers.old }
{
    let pc = registers.core[PC];
    enter(registers, pc);
    registers.core[ICR] = fields::icr::written(registers.core[ICR], false, level as u32);
    registers.core[PC] = new_pc(registers.core[BIV] | level as u32 * 32);
}
