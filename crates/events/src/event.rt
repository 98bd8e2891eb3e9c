// What a step comes to.

ghost use Rattle.std.specs.Prelude.{◌≡◌};
ghost use Rattle.events.specs.Events.{stop_number};

use crate::trap::Trap;

#[derive(Clone, Copy)]
pub enum Event {
    Instruction,
    // with the source
    Interrupt(u8),
    Trap(Trap),
}

// What a step that is accepted cannot be made for. Such a step answers its event, or why it stopped: a `Result<Event, Stop>`.
#[derive(Clone, Copy)]
pub enum Stop {
    // a save with FCX link 0
    NoArea,
    // a save or return whose area lies in neither window
    Outside,
}

// Document 01's number of a stop.
pub fn stop_number(s: Stop) -> u32
    ensures { result ≡ stop_number s }
{
    match s {
        Stop::NoArea => 11,
        Stop::Outside => 12,
    }
}

// The same ending in a variable of the caller's own. A function that is called and not inlined writes its answer through a pointer; what is passed on so stays in a register.
pub fn passed_on(e: Result<Event, Stop>) -> Result<Event, Stop>
    ensures { result ≡ e }
{
    match e {
        Ok(v) => Ok(v),
        Err(s) => Err(s),
    }
}
