// What a step and a run answer.

ghost use Rattle.std.specs.Prelude.{◌≡◌};
ghost use Rattle.machine.specs.Step.{outcome_of};

use events::event::{Event, Stop};
use inputs::verdict::Refusal;
use permits::Permits;
use registers::Registers;

// Why a step was not made: it stopped, or what it was given is refused.
#[derive(Clone, Copy)]
pub enum Unmade {
    Stopped(Stop),
    Refused(Refusal),
}

// A step's event, or why it was not made. Of a run: its last step's.
pub type Outcome = Result<Event, Unmade>;

#[derive(Drop)]
pub struct Stepped {
    pub registers: Registers,
    pub requests: [u32; 16],
    pub outcome: Outcome,
    pub permits: Permits,
}

#[derive(Drop)]
pub struct Ran {
    pub registers: Registers,
    pub requests: [u32; 16],
    pub outcome: Outcome,
    pub made: u32,
}

// The outcome of a step that was accepted.
pub fn outcome_of(e: Result<Event, Stop>) -> Outcome
    ensures { result ≡ outcome_of e }
{
    e.map_err(Unmade::Stopped)
}
