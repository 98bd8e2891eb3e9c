// The entries: a save of the upper context, and the registers set.

ghost use Rattle.std.specs.Prelude.{◌≡◌};
ghost use Rattle.memory.specs.Memory.{lent};
ghost use Rattle.entries.specs.Entry.{made, fcd_of, cause_event, cause_entry, enter_of};

use crate::setting::{enter_interrupt, enter_trap};
use areas::area::next_link;
use areas::link::spot_of;
use contexts::context::{Half, upper};
use contexts::save::{Saved, find, save, take};
use events::event::{Event, Stop};
use events::trap::{FCD, Trap};
use fields::link::link_of;
use memory::address::Address;
use registers::{FCX, PC, Registers};

// The FCD entry after a step's save: it works on the state that the step had reached.
pub fn enter_fcd(
    base: Address,
    window: &mut [u8],
    base2: Address,
    window2: &mut [u8],
    registers: &mut Registers,
) -> Result<Event, Stop>
    ensures { made result registers.new (lent base window.new base2 window2.new) ≡ fcd_of registers.old (lent base window.old base2 window2.old) }
{
    let l = link_of(registers.core[FCX]);
    find(base, window, base2, window2, l)?;
    let at = spot_of(base, window, base2, window2, l);
    let next = next_link(base, window, base2, window2, l);
    let words = upper(registers);
    take(
        window,
        window2,
        &mut registers.core,
        at,
        Half::Upper,
        words,
        next,
    );
    let pc = registers.core[PC];
    enter_trap(registers, FCD, pc);
    Ok(Event::Trap(FCD))
}

// What an entry is for.
#[derive(Clone, Copy)]
pub enum Cause {
    // with its return address
    Trap(Trap, u32),
    // the source and its priority number; the return address is PC
    Interrupt(u8, u8),
}

fn event_of(cause: Cause) -> Event
    ensures { result ≡ cause_event cause }
{
    match cause {
        Cause::Trap(t, _) => Event::Trap(t),
        Cause::Interrupt(source, _) => Event::Interrupt(source),
    }
}

fn set_entry(registers: &mut Registers, cause: Cause)
    ensures { registers.new ≡ cause_entry cause registers.old }
{
    match cause {
        Cause::Trap(t, back) => enter_trap(registers, t, back),
        Cause::Interrupt(_, level) => enter_interrupt(registers, level),
    }
}

// An entry. One function for both causes: the run's loop calls it, and holds none of its work.
fn enter(
    base: Address,
    window: &mut [u8],
    base2: Address,
    window2: &mut [u8],
    registers: &mut Registers,
    cause: Cause,
) -> Result<Event, Stop>
    ensures { made result registers.new (lent base window.new base2 window2.new) ≡ enter_of cause registers.old (lent base window.old base2 window2.old) }
{
    let saved = save(base, window, base2, window2, registers, Half::Upper, 0)?;
    set_entry(registers, cause);
    match saved {
        Saved::Done => Ok(event_of(cause)),
        Saved::Depleted => enter_fcd(base, window, base2, window2, registers),
    }
}

// A trap, with the return address.
pub fn trap(
    base: Address,
    window: &mut [u8],
    base2: Address,
    window2: &mut [u8],
    registers: &mut Registers,
    t: Trap,
    back: u32,
) -> Result<Event, Stop>
    ensures { made result registers.new (lent base window.new base2 window2.new) ≡ enter_of (Cause.Trap t back) registers.old (lent base window.old base2 window2.old) }
{
    enter(
        base,
        window,
        base2,
        window2,
        registers,
        Cause::Trap(t, back),
    )
}

// An interrupt from a source, with its priority number.
pub fn interrupt(
    base: Address,
    window: &mut [u8],
    base2: Address,
    window2: &mut [u8],
    registers: &mut Registers,
    source: u8,
    level: u8,
) -> Result<Event, Stop>
    ensures { made result registers.new (lent base window.new base2 window2.new) ≡ enter_of (Cause.Interrupt source level) registers.old (lent base window.old base2 window2.old) }
{
    enter(
        base,
        window,
        base2,
        window2,
        registers,
        Cause::Interrupt(source, level),
    )
}
