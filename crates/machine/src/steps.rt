// A step and a run: by value outside, over the registers by reference inside. The rules 1, 13 and 2 to 4 are tried once, before the first step.

ghost use Rattle.std.specs.Prelude.{◌≡◌, true};
ghost use Rattle.words.specs.Exactly.{Exactly};
ghost use Rattle.memory.specs.Memory.{lent};
ghost use Rattle.registers.specs.Registers.{pc};
ghost use Rattle.image.specs.Marks.{long_only};
ghost use Rattle.inputs.specs.Rules.{StepSays};
ghost use Rattle.machine.specs.Step.{verdict_in, stepped, step_of};
ghost use Rattle.machine.specs.Run.{ran, run_of, RefusedKeeps};
ghost use Rattle.machine.specs.Inner.{Ready};

use crate::answer::{Ran, Stepped, Unmade, outcome_of};
use crate::guided::run_guided;
use crate::run_steps::run_steps;
use image::marks::Guide;
use inputs::checks::scan_step;
use memory::address::Address;
use permits::{Permits, permits_of};
use protection::range::Range;
use registers::{PC, Registers};

// A step of a machine that these rules accept, with what they told of the image.
fn step_accepted(
    base: Address,
    window: &mut [u8],
    base2: Address,
    window2: &mut [u8],
    image: &[u8],
    long: bool,
    mut registers: Registers,
    mut requests: [u32; 16],
    ranges: &[Range; 32],
) -> Stepped
    requires ready { Ready image.now registers (lent base window.old base2 window2.old) }
    requires all_long { long ≡ true → long_only image.now ≡ true }
    ensures { stepped result.outcome result.registers result.requests (lent base window.new base2 window2.new) result.permits ≡ step_of image.now registers requests ranges.now (lent base window.old base2 window2.old) }
{
    let none = [0; 1];
    let permits = permits_of(image, long, &registers, &requests, ranges);
    let w = run_steps(
        base,
        window,
        base2,
        window2,
        image,
        Guide { long, shift: 0 },
        &none,
        &mut registers,
        &mut requests,
        ranges,
        1,
    );
    Stepped {
        registers,
        requests,
        outcome: outcome_of(w.ending),
        permits,
    }
}

// A step of the machine in that state, with the requests of the 16 sources and the ranges of the four sets.
pub fn step(
    base: Address,
    window: &mut [u8],
    base2: Address,
    window2: &mut [u8],
    image: &[u8],
    registers: Registers,
    requests: [u32; 16],
    ranges: [Range; 32],
) -> Stepped
    ensures stepped { stepped result.outcome result.registers result.requests (lent base window.new base2 window2.new) result.permits ≡ step_of image.now registers requests ranges (lent base window.old base2 window2.old) }
    ensures exactly { Exactly (StepSays (lent base window.old base2 window2.old) image.now (pc registers)) (verdict_in result.outcome) }
{
    match scan_step(base, window, base2, window2, image, registers.core[PC]) {
        Err(x) => Stepped {
            registers,
            requests,
            outcome: Err(Unmade::Refused(x)),
            permits: Permits {
                fetch: None,
                access: None,
            },
        },
        Ok(long) => step_accepted(
            base, window, base2, window2, image, long, registers, requests, &ranges,
        ),
    }
}

// A run of n steps from that state.
pub fn run(
    base: Address,
    window: &mut [u8],
    base2: Address,
    window2: &mut [u8],
    image: &[u8],
    mut registers: Registers,
    mut requests: [u32; 16],
    ranges: [Range; 32],
    n: u32,
) -> Ran
    ensures ran { ran result.outcome result.made result.registers result.requests (lent base window.new base2 window2.new) ≡ run_of n image.now registers requests ranges (lent base window.old base2 window2.old) }
    ensures refused_keeps { RefusedKeeps registers requests (lent base window.old base2 window2.old) (ran result.outcome result.made result.registers result.requests (lent base window.new base2 window2.new)) }
    ensures exactly { Exactly (StepSays (lent base window.old base2 window2.old) image.now (pc registers)) (verdict_in result.outcome) }
{
    match scan_step(base, window, base2, window2, image, registers.core[PC]) {
        Err(x) => Ran {
            registers,
            requests,
            outcome: Err(Unmade::Refused(x)),
            made: 0,
        },
        Ok(long) => {
            let w = run_guided(
                base,
                window,
                base2,
                window2,
                image,
                long,
                &mut registers,
                &mut requests,
                &ranges,
                n,
            );
            Ran {
                registers,
                requests,
                outcome: outcome_of(w.ending),
                made: w.made,
            }
        }
    }
}
