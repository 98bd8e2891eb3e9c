// The checks and the step with one window: a second one of length 0 is lent beside it.

ghost use Rattle.std.specs.Prelude.{◌≡◌};
ghost use Rattle.inputs.specs.Checks.{start_verdict};
ghost use Rattle.machine.specs.Step.{stepped, step_of};
ghost use Rattle.walk.specs.Start.{window_of};

use crate::start::BASE;
use inputs::checks::try_start;
use inputs::verdict::Refusal;
use machine::answer::Stepped;
use machine::steps::step;
use memory::address::Address;
use protection::range::Range;
use registers::Registers;

// Any address: the second window has no bytes.
const NONE: Address = Address(0);

pub fn try_alone(window: &[u8], image: &[u8], pc: u32, fcx: u32, pcxi: u32) -> Result<(), Refusal>
    ensures { result ≡ start_verdict (window_of window.now) image.now pc fcx pcxi }
{
    let none = [0; 0];
    try_start(BASE, window, NONE, &none, image, pc, fcx, pcxi)
}

pub fn step_alone(
    window: &mut [u8],
    image: &[u8],
    registers: Registers,
    requests: [u32; 16],
    ranges: [Range; 32],
) -> Stepped
    ensures { stepped result.outcome result.registers result.requests (window_of window.new) result.permits ≡ step_of image.now registers requests ranges (window_of window.old) }
{
    let mut none = [0; 0];
    step(
        BASE, window, NONE, &mut none, image, registers, requests, ranges,
    )
}
