// A run of an accepted machine, with marks of its records where they are worth it.

ghost use Rattle.std.specs.Prelude.{◌≡◌, true, Ok};
ghost use Rattle.memory.specs.Memory.{lent};
ghost use Rattle.image.specs.Marks.{long_only};
ghost use Rattle.machine.specs.Step.{outcome_of};
ghost use Rattle.machine.specs.Run.{ran, run_from};
ghost use Rattle.machine.specs.Inner.{Ready};
ghost use Rattle.events.specs.declared.event.Event.TheVariants as event;

use crate::run_steps::{Went, run_steps};
use image::marks::{Guide, mark_image};
use memory::address::Address;
use protection::range::Range;
use registers::Registers;

// So many steps or more of an image with short forms are worth its marks.
const MARKED: u32 = 64;

// n steps of an image with short forms, with marks.
fn run_marked(
    base: Address,
    window: &mut [u8],
    base2: Address,
    window2: &mut [u8],
    image: &[u8],
    registers: &mut Registers,
    requests: &mut [u32; 16],
    ranges: &[Range; 32],
    n: u32,
) -> Went
    requires { Ready image.now registers.old (lent base window.old base2 window2.old) }
    ensures { ran (outcome_of result.ending) result.made registers.new requests.new (lent base window.new base2 window2.new) ≡ run_from n image.now ranges.now (Ok event.Instruction) 0 registers.old requests.old (lent base window.old base2 window2.old) }
{
    let mut marks = [0; 4096];
    let shift = mark_image(image, &mut marks);
    run_steps(
        base,
        window,
        base2,
        window2,
        image,
        Guide { long: false, shift },
        &marks,
        registers,
        requests,
        ranges,
        n,
    )
}

// n steps of an image of which it is known whether it has no short form.
pub fn run_guided(
    base: Address,
    window: &mut [u8],
    base2: Address,
    window2: &mut [u8],
    image: &[u8],
    long: bool,
    registers: &mut Registers,
    requests: &mut [u32; 16],
    ranges: &[Range; 32],
    n: u32,
) -> Went
    requires ready { Ready image.now registers.old (lent base window.old base2 window2.old) }
    requires all_long { long ≡ true → long_only image.now ≡ true }
    ensures { ran (outcome_of result.ending) result.made registers.new requests.new (lent base window.new base2 window2.new) ≡ run_from n image.now ranges.now (Ok event.Instruction) 0 registers.old requests.old (lent base window.old base2 window2.old) }
{
    if !long {
        if MARKED <= n {
            return run_marked(
                base, window, base2, window2, image, registers, requests, ranges, n,
            );
        }
    }
    let none = [0; 1];
    run_steps(
        base,
        window,
        base2,
        window2,
        image,
        Guide { long, shift: 0 },
        &none,
        registers,
        requests,
        ranges,
        n,
    )
}
