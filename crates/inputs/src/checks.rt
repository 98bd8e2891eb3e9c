// The rules, in order. A check reads what it is lent and changes nothing.

ghost use Rattle.std.specs.Prelude.{◌≡◌, ◌++◌, ◌≤◌, length, IfOk};
ghost use Rattle.memory.specs.Memory.{lent};
ghost use Rattle.lists.specs.Walk.{lists_of};
ghost use Rattle.inputs.specs.Checks.{window_holds, second_holds, apart_holds, windows_verdict, window_verdict, and_then, image_verdict, pc_verdict, lists_said, lists_verdict, step_verdict, start_verdict};
ghost use Rattle.image.specs.Records.{without_long};
ghost use Rattle.image.specs.Marks.{long_only};
ghost use Rattle.inputs.specs.Rules.{WindowsSay, ContentsSay, PcSays, ListsSay, StepSays, StartSays};
ghost use Rattle.words.specs.Exactly.{Exactly};

use crate::verdict::Refusal;
use memory::address::Address;

// Rule 1: where a window lies, and its length.
#[tactic(auto, unfolding(crate::specs::Checks::window_holds))]
fn window_holds(base: Address, len: usize) -> bool
    ensures { result ≡ window_holds base len }
{
    base.0 % 64 == 0
        && len % 64 == 0
        && (1..=0x1_0000).contains(&len)
        && base.0 / 0x1000_0000 <= 13
        && (base.0 % 0x1000_0000) as usize + len <= 0x1000_0000
}

// Rule 1 of the second window, which may have no bytes.
#[tactic(auto, unfolding(crate::specs::Checks::second_holds))]
fn second_holds(base: Address, len: usize) -> bool
    ensures { result ≡ second_holds base len }
{
    len == 0 || window_holds(base, len)
}

// Rule 13: the windows do not overlap.
#[tactic(auto, unfolding(crate::specs::Checks::apart_holds))]
fn apart_holds(base: Address, len: usize, base2: Address, len2: usize) -> bool
    requires { (len ≤ 65536) × (len2 ≤ 65536) }
    ensures { result ≡ apart_holds base len base2 len2 }
{
    len2 == 0
        || base.0 as usize + len <= base2.0 as usize
        || base2.0 as usize + len2 <= base.0 as usize
}

// Rule 1 on each window in turn, then rule 13.
fn try_windows(base: Address, len: usize, base2: Address, len2: usize) -> Result<(), Refusal>
    ensures { result ≡ windows_verdict base len base2 len2 }
{
    if !window_holds(base, len) || !second_holds(base2, len2) {
        return Err(Refusal::Window);
    }
    if !apart_holds(base, len, base2, len2) {
        return Err(Refusal::Overlap);
    }
    Ok(())
}

// Rules 1 and 13.
pub fn check_windows(
    base: Address,
    window: &[u8],
    base2: Address,
    window2: &[u8],
) -> Result<(), Refusal>
    ensures verdict { (result ≡ window_verdict (lent base window.now base2 window2.now)) × Exactly (WindowsSay (lent base window.now base2 window2.now)) result }
    ensures unchanged { (window.exit.now ≡ window.entry.now) × (window2.exit.now ≡ window2.entry.now) }
{
    try_windows(base, window.len(), base2, window2.len())
}

// Rules 2 and 3.
pub fn check_image(image: &[u8]) -> Result<(), Refusal>
    ensures verdict { (result ≡ image_verdict image.now) × Exactly (ContentsSay image.now) result }
    ensures unchanged { image.exit.now ≡ image.entry.now }
{
    image::records::check_image(image)?;
    Ok(())
}

// Rule 4.
pub fn check_pc(pc: u32) -> Result<(), Refusal>
    ensures { (result ≡ pc_verdict pc) × Exactly (PcSays pc) result }
{
    if pc % 2 != 0 {
        return Err(Refusal::OddPc);
    }
    Ok(())
}

// Rules 5 and 6, of windows that rules 1 and 13 accept: the free list from FCX, then the used one from PCXI.
pub fn check_lists<'a>(
    base: Address,
    window: &'a [u8],
    base2: Address,
    window2: &'a [u8],
    fcx: u32,
    pcxi: u32,
) -> Result<(), Refusal>
    ensures verdict { (result ≡ lists_verdict (lent base window.now base2 window2.now) fcx pcxi) × Exactly (ListsSay (lent base window.now base2 window2.now) fcx pcxi) result }
    ensures unchanged { (window.exit.now ≡ window.entry.now) × (window2.exit.now ≡ window2.entry.now) }
{
    check_windows(base, window, base2, window2)?;
    try_lists(base, window, base2, window2, fcx, pcxi)
}

fn try_lists<'a>(
    base: Address,
    window: &'a [u8],
    base2: Address,
    window2: &'a [u8],
    fcx: u32,
    pcxi: u32,
) -> Result<(), Refusal>
    requires { length (window.now ++ window2.now) ≤ 0x2_0000 }
    ensures { result ≡ lists_said (lists_of (lent base window.now base2 window2.now) fcx pcxi) }
{
    lists::check(base, window, base2, window2, fcx, pcxi)?;
    Ok(())
}

// Rules 2 to 4; where they hold, whether the image has no short form.
fn try_code(image: &[u8], pc: u32) -> Result<bool, Refusal>
    ensures { (without_long result ≡ and_then (image_verdict image.now) (pc_verdict pc)) × IfOk result (λ long. long ≡ long_only image.now) }
{
    let long = image::records::scan_image(image)?;
    check_pc(pc)?;
    Ok(long)
}

// Rules 1, 13 and 2 to 4: what a step, or a run from a given state, is tried with. Where they hold, whether the image has no short form, which the pass over the records tells.
pub fn scan_step(
    base: Address,
    window: &[u8],
    base2: Address,
    window2: &[u8],
    image: &[u8],
    pc: u32,
) -> Result<bool, Refusal>
    ensures verdict { (without_long result ≡ step_verdict (lent base window.now base2 window2.now) image.now pc) × Exactly (StepSays (lent base window.now base2 window2.now) image.now pc) (without_long result) × IfOk result (λ long. long ≡ long_only image.now) }
    ensures unchanged { (window.exit.now ≡ window.entry.now) × (window2.exit.now ≡ window2.entry.now) × (image.exit.now ≡ image.entry.now) }
{
    check_windows(base, window, base2, window2)?;
    try_code(image, pc)
}

pub fn try_step(
    base: Address,
    window: &[u8],
    base2: Address,
    window2: &[u8],
    image: &[u8],
    pc: u32,
) -> Result<(), Refusal>
    ensures verdict { (result ≡ step_verdict (lent base window.now base2 window2.now) image.now pc) × Exactly (StepSays (lent base window.now base2 window2.now) image.now pc) result }
    ensures unchanged { (window.exit.now ≡ window.entry.now) × (window2.exit.now ≡ window2.entry.now) × (image.exit.now ≡ image.entry.now) }
{
    scan_step(base, window, base2, window2, image, pc)?;
    Ok(())
}

// All seven rules: what a start is tried with.
pub fn try_start<'a>(
    base: Address,
    window: &'a [u8],
    base2: Address,
    window2: &'a [u8],
    image: &[u8],
    pc: u32,
    fcx: u32,
    pcxi: u32,
) -> Result<(), Refusal>
    ensures verdict { (result ≡ start_verdict (lent base window.now base2 window2.now) image.now pc fcx pcxi) × Exactly (StartSays (lent base window.now base2 window2.now) image.now pc fcx pcxi) result }
    ensures unchanged { (window.exit.now ≡ window.entry.now) × (window2.exit.now ≡ window2.entry.now) × (image.exit.now ≡ image.entry.now) }
{
    try_step(base, window, base2, window2, image, pc)?;
    try_lists(base, window, base2, window2, fcx, pcxi)
}
