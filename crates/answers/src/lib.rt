// The answers as numbers: the kind in bits 7:0, its number in 15:8, a TIN in 23:16, the permitting ranges in 31:24, and the high word.

#![tactic(auto)]

ghost use Rattle.std.specs.Prelude.{◌≡◌, ◌<◌};
ghost use Rattle.answers.specs.Answers.{packed_of, permit_number, permits_number, event_answer, refusal_answer, unmade_answer, outcome_answer, wrong_length, verdict_answer};

use events::event::{Event, stop_number};
use inputs::verdict::{Refusal, fault, number};
use machine::answer::{Outcome, Unmade};
use permits::Permits;

fn packed(kind: u8, number: u8, tin: u8, permits: u8, high: u32) -> u64
    ensures { result ≡ packed_of kind number tin permits high }
{
    kind as u64
        + number as u64 * 0x100
        + tin as u64 * 0x1_0000
        + permits as u64 * 0x100_0000
        + high as u64 * 0x1_0000_0000
}

// A permitting range by its number among the four of its set, with bit 2; 0 for none.
fn permit(p: Option<usize>) -> u8
    ensures { (result ≡ permit_number p) × (result < 8) }
{
    match p {
        None => 0,
        Some(k) => (4 + k % 4) as u8,
    }
}

// The fetch's range, and three bits higher the data access's.
pub fn permits(p: Permits) -> u8
    ensures { result ≡ permits_number p }
{
    permit(p.fetch) + permit(p.access) * 8
}

fn event_answer(e: Event, permits: u8, high: u32) -> u64
    ensures { result ≡ event_answer e permits high }
{
    match e {
        Event::Instruction => packed(0, 0, 0, permits, high),
        Event::Interrupt(source) => packed(1, source, 0, permits, high),
        Event::Trap(t) => packed(2, t.class, t.tin, permits, high),
    }
}

fn refusal_answer(x: Refusal, permits: u8) -> u64
    ensures { result ≡ refusal_answer x permits }
{
    packed(4, number(x) as u8, 0, permits, fault(x))
}

fn unmade_answer(u: Unmade, permits: u8, made: u32) -> u64
    ensures { result ≡ unmade_answer u permits made }
{
    match u {
        Unmade::Stopped(s) => packed(3, stop_number(s) as u8, 0, permits, made),
        Unmade::Refused(x) => refusal_answer(x, permits),
    }
}

// Of a step or a run that has made so many steps.
pub fn outcome_answer(o: Outcome, permits: u8, made: u32) -> u64
    ensures { result ≡ outcome_answer o permits made }
{
    match o {
        Ok(e) => event_answer(e, permits, made),
        Err(u) => unmade_answer(u, permits, made),
    }
}

// Of a core record of another length than 616.
pub fn wrong_length() -> u64
    ensures { result ≡ wrong_length }
{
    packed(5, 0, 0, 0, 0)
}

// Of a start.
pub fn verdict_answer(v: Result<(), Refusal>) -> u64
    ensures { result ≡ verdict_answer v }
{
    match v {
        Ok(()) => packed(6, 0, 0, 0, 0),
        Err(x) => refusal_answer(x, 0),
    }
}
