// The host library: a start, a step and a run on a core record, two windows and an image that the host lends. No pointer is kept.

#![tactic(auto)]

ghost use Rattle.std.specs.Prelude.{◌≡◌, length};
ghost use Rattle.memory.specs.Address.{as_address};
ghost use Rattle.memory.specs.Memory.{lent};
ghost use Rattle.deqbaryn.specs.Host.{version, start_answer, StartTells, step_stored, run_stored, called, step_call, StepTells, StepHolds, run_call, RunTells, RunHolds, UnmadeKeeps};
ghost use Rattle.deqbaryn.specs.Calls.{AcceptedFollows};

use answers::{outcome_answer, permits, verdict_answer, wrong_length};
use machine::answer::{Outcome, Unmade};
use machine::steps::{run, step};
use memory::address::as_address;
use records::{read_ranges, read_registers, read_requests, write_back};
use registers::Registers;
use series::start;

// The version of this interface, which include/deqbaryn.h names too.
#[unsafe(no_mangle)]
pub extern "C" fn deqbaryn_version() -> u32
    ensures { result ≡ version }
{
    3
}

// Whether the start is accepted, with PC, FCX and PCXI of the record.
#[unsafe(no_mangle)]
pub extern "C" fn deqbaryn_start<'a>(
    core: &[u8],
    base: u32,
    window: &'a [u8],
    base2: u32,
    window2: &'a [u8],
    image: &[u8],
) -> u64
    ensures answer { result ≡ start_answer core.now (lent (as_address base) window.now (as_address base2) window2.now) image.now }
    ensures start_tells { StartTells core.now (lent (as_address base) window.now (as_address base2) window2.now) image.now result }
    ensures accepted_follows { AcceptedFollows core.now (lent (as_address base) window.now (as_address base2) window2.now) result }
    ensures unchanged { (core.exit.now ≡ core.entry.now) × (window.exit.now ≡ window.entry.now) × (window2.exit.now ≡ window2.entry.now) × (image.exit.now ≡ image.entry.now) }
{
    if core.len() != 616 {
        return wrong_length();
    }
    let r = read_registers(core);
    let first = as_address(base);
    let second = as_address(base2);
    verdict_answer(start(first, window, second, window2, image, r))
}

// A refused or stopped step leaves the record as it was.
fn store_step(core: &mut [u8], outcome: Outcome, registers: Registers, requests: [u32; 16])
    requires { length core.old ≡ 616 }
    ensures { core.new ≡ step_stored outcome registers requests core.old }
{
    if outcome.is_ok() {
        write_back(core, registers, requests);
    }
}

// A run that stops leaves the record as its last step made left it.
fn store_run(core: &mut [u8], outcome: Outcome, registers: Registers, requests: [u32; 16])
    requires { length core.old ≡ 616 }
    ensures { core.new ≡ run_stored outcome registers requests core.old }
{
    match outcome {
        Ok(_) => write_back(core, registers, requests),
        Err(Unmade::Stopped(_)) => write_back(core, registers, requests),
        Err(Unmade::Refused(_)) => {}
    }
}

#[unsafe(no_mangle)]
pub extern "C" fn deqbaryn_step(
    core: &mut [u8],
    base: u32,
    window: &mut [u8],
    base2: u32,
    window2: &mut [u8],
    image: &[u8],
) -> u64
    ensures called { called result core.new (lent (as_address base) window.new (as_address base2) window2.new) ≡ step_call core.old (lent (as_address base) window.old (as_address base2) window2.old) image.now }
    ensures step_tells { StepTells core.old (lent (as_address base) window.old (as_address base2) window2.old) image.now }
    ensures step_holds { StepHolds core.old (lent (as_address base) window.old (as_address base2) window2.old) image.now core.new }
{
    if core.len() != 616 {
        return wrong_length();
    }
    let r = read_registers(core);
    let xs = read_requests(core);
    let rs = read_ranges(core);
    let first = as_address(base);
    let second = as_address(base2);
    let s = step(first, window, second, window2, image, r, xs, rs);
    store_step(core, s.outcome, s.registers, s.requests);
    outcome_answer(s.outcome, permits(s.permits), 0)
}

#[unsafe(no_mangle)]
pub extern "C" fn deqbaryn_run(
    core: &mut [u8],
    base: u32,
    window: &mut [u8],
    base2: u32,
    window2: &mut [u8],
    image: &[u8],
    n: u32,
) -> u64
    ensures called { called result core.new (lent (as_address base) window.new (as_address base2) window2.new) ≡ run_call n core.old (lent (as_address base) window.old (as_address base2) window2.old) image.now }
    ensures run_tells { RunTells n core.old (lent (as_address base) window.old (as_address base2) window2.old) image.now }
    ensures run_holds { RunHolds n core.old (lent (as_address base) window.old (as_address base2) window2.old) image.now core.new }
    ensures unmade_keeps { UnmadeKeeps n core.old (lent (as_address base) window.old (as_address base2) window2.old) image.now core.new (lent (as_address base) window.new (as_address base2) window2.new) }
{
    if core.len() != 616 {
        return wrong_length();
    }
    let r = read_registers(core);
    let xs = read_requests(core);
    let rs = read_ranges(core);
    let first = as_address(base);
    let second = as_address(base2);
    let v = run(first, window, second, window2, image, r, xs, rs, n);
    store_run(core, v.outcome, v.registers, v.requests);
    outcome_answer(v.outcome, 0, v.made)
}
