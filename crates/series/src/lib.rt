// The start, with demand 3: what is accepted here has its lists follow the abstract ones over any series of calls.

#![tactic(auto)]

ghost use Rattle.std.specs.Prelude.{◌≡◌, Ok};
ghost use Rattle.memory.specs.Memory.{lent};
ghost use Rattle.registers.specs.Registers.{pc, fcx, pcxi};
ghost use Rattle.words.specs.Exactly.{Exactly};
ghost use Rattle.inputs.specs.Checks.{start_verdict};
ghost use Rattle.inputs.specs.Rules.{StartSays};
ghost use Rattle.series.specs.Calls.{state};
ghost use Rattle.series.specs.Claim.{Follows};

use inputs::verdict::Refusal;
use memory::address::Address;
use registers::{FCX, PC, PCXI, Registers};

// All seven rules, of a machine in that state.
pub fn start<'a>(
    base: Address,
    window: &'a [u8],
    base2: Address,
    window2: &'a [u8],
    image: &[u8],
    registers: Registers,
) -> Result<(), Refusal>
    ensures verdict { (result ≡ start_verdict (lent base window.now base2 window2.now) image.now (pc registers) (fcx registers) (pcxi registers)) × Exactly (StartSays (lent base window.now base2 window2.now) image.now (pc registers) (fcx registers) (pcxi registers)) result }
    ensures follows { result ≡ Ok tt → Follows (state registers (lent base window.now base2 window2.now)) }
{
    inputs::checks::try_start(
        base,
        window,
        base2,
        window2,
        image,
        registers.core[PC],
        registers.core[FCX],
        registers.core[PCXI],
    )
}
