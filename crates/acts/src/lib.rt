// How an instruction ends. A trap's entry follows it.

#![tactic(auto)]

ghost use Rattle.std.specs.Prelude.{◌≡◌};
ghost use Rattle.acts.specs.Acts.{control_of, is_same, done_by};

use events::event::Stop;
use events::trap::Trap;
use registers::{CORE, ICR, PSW, SYSCON};

#[derive(Clone, Copy)]
pub enum How {
    Done,
    // done, and ICR, SYSCON or PSW.PRS is another than before
    Switched,
    // done, and an FCD entry follows
    Depleted,
    // the return address is the instruction's own
    Trap(Trap),
    // the return address is the next instruction's
    TrapAfter(Trap),
    Stopped(Stop),
}

// The same answer in a variable of the caller's own, as events::event::passed_on.
pub fn passed_on(h: How) -> How
    ensures { result ≡ h }
{
    match h {
        How::Done => How::Done,
        How::Switched => How::Switched,
        How::Depleted => How::Depleted,
        How::Trap(t) => How::Trap(t),
        How::TrapAfter(t) => How::TrapAfter(t),
        How::Stopped(s) => How::Stopped(s),
    }
}

// What interrupts are taken by, and what fetches are checked by: ICR; SYSCON and PSW.PRS.
#[derive(Clone, Copy, PartialEq, Eq)]
pub struct Control {
    pub icr: u32,
    pub syscon: u32,
    pub prs: usize,
}

pub fn control_of(core: &[u32; CORE]) -> Control
    ensures { result ≡ control_of core.now }
{
    Control {
        icr: core[ICR],
        syscon: core[SYSCON],
        prs: fields::psw::protection_set(core[PSW]),
    }
}

// How an instruction that may have changed it ends, once it is done.
pub fn settled(before: Control, core: &[u32; CORE]) -> How
    ensures { result ≡ done_by (is_same before (control_of core.now)) }
{
    let now = control_of(core);
    if before == now {
        How::Done
    } else {
        How::Switched
    }
}
