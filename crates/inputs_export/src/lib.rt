// The checks of the inputs and the fetch for the tests: exported functions on numbers and byte slices.

#![tactic(auto)]

ghost use Rattle.std.specs.Prelude.{◌≡◌};
ghost use Rattle.memory.specs.Address.{as_address};
ghost use Rattle.memory.specs.Memory.{lent};
ghost use Rattle.image.specs.Records.{ImageHolds};
ghost use Rattle.words.specs.Exactly.{Tells};
ghost use Rattle.inputs.specs.Checks.{image_verdict, lists_verdict, step_verdict, start_verdict};
ghost use Rattle.inputs.specs.Rules.{ContentsSay, ListsSay, StepSays, StartSays};
ghost use Rattle.inputs_export.specs.Export.{verdict_of, FetchTells, FetchTold, fetched_of, exported_fetch};

use image::fetch::fetch;
use inputs::checks;
use inputs::verdict::{Refusal, fault, number};
use memory::address::as_address;

// 0 for accepted; else the rule's number, and its place in the high word.
fn packed(v: Result<(), Refusal>) -> u64
    ensures { result ≡ verdict_of v }
{
    match v {
        Ok(()) => 0,
        Err(r) => fault(r) as u64 * 0x1_0000_0000 + number(r) as u64,
    }
}

#[unsafe(no_mangle)]
pub extern "C" fn deqbaryn_check_image(image: &[u8]) -> u64
    ensures { (result ≡ verdict_of (image_verdict image.now)) × Tells verdict_of (ContentsSay image.now) result }
{
    packed(checks::check_image(image))
}

#[unsafe(no_mangle)]
pub extern "C" fn deqbaryn_check_lists<'a>(
    base: u32,
    window: &'a [u8],
    base2: u32,
    window2: &'a [u8],
    fcx: u32,
    pcxi: u32,
) -> u64
    ensures { (result ≡ verdict_of (lists_verdict (lent (as_address base) window.now (as_address base2) window2.now) fcx pcxi)) × Tells verdict_of (ListsSay (lent (as_address base) window.now (as_address base2) window2.now) fcx pcxi) result }
{
    let first = as_address(base);
    let second = as_address(base2);
    packed(checks::check_lists(first, window, second, window2, fcx, pcxi))
}

#[unsafe(no_mangle)]
pub extern "C" fn deqbaryn_try_step(
    base: u32,
    window: &[u8],
    base2: u32,
    window2: &[u8],
    image: &[u8],
    pc: u32,
) -> u64
    ensures { (result ≡ verdict_of (step_verdict (lent (as_address base) window.now (as_address base2) window2.now) image.now pc)) × Tells verdict_of (StepSays (lent (as_address base) window.now (as_address base2) window2.now) image.now pc) result }
{
    let first = as_address(base);
    let second = as_address(base2);
    packed(checks::try_step(first, window, second, window2, image, pc))
}

#[unsafe(no_mangle)]
pub extern "C" fn deqbaryn_try_start<'a>(
    base: u32,
    window: &'a [u8],
    base2: u32,
    window2: &'a [u8],
    image: &[u8],
    pc: u32,
    fcx: u32,
    pcxi: u32,
) -> u64
    ensures { (result ≡ verdict_of (start_verdict (lent (as_address base) window.now (as_address base2) window2.now) image.now pc fcx pcxi)) × Tells verdict_of (StartSays (lent (as_address base) window.now (as_address base2) window2.now) image.now pc fcx pcxi) result }
{
    let first = as_address(base);
    let second = as_address(base2);
    packed(checks::try_start(first, window, second, window2, image, pc, fcx, pcxi))
}

// The record at pc of an accepted image: how many addresses it covers, c, a, b from the lowest byte on, and the immediate in the high word. 0 where no record begins there, or the image is refused.
#[unsafe(no_mangle)]
pub extern "C" fn deqbaryn_fetch(image: &[u8], pc: u32) -> u64
    ensures { (result ≡ exported_fetch image.now pc) × FetchTold image.now pc result }
{
    match image::records::check_image(image) {
        Ok(()) => fetched(image, pc),
        Err(_) => 0,
    }
}

fn fetched(image: &[u8], pc: u32) -> u64
    requires { ImageHolds image.now }
    ensures { (result ≡ fetched_of image.now pc) × FetchTells image.now pc result }
{
    match fetch(image, pc) {
        None => 0,
        Some(i) => {
            i.imm as u64 * 0x1_0000_0000
                + i.b as u64 * 0x100_0000
                + i.a as u64 * 0x1_0000
                + i.c as u64 * 0x100
                + std::num::wrapping_sub_u32(i.next, pc) as u64
        }
    }
}
