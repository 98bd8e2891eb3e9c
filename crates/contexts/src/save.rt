// A save: the area at FCX, its sixteen words, and the heads of the lists afterwards.

ghost use Rattle.std.specs.Prelude.{◌≡◌, ◌++◌, length};
ghost use Rattle.memory.specs.Memory.{lent};
ghost use Rattle.memory.specs.Word.{put_words};
ghost use Rattle.areas.specs.Place.{LiesIn, offset};
ghost use Rattle.registers.specs.Registers.{with_cores};
ghost use Rattle.contexts.specs.Context.{context_of};
ghost use Rattle.contexts.specs.Save.{room_of, taken, heads_of, foreseen_of, saving, save_of};

use crate::context::{Half, context, ul};
use areas::area::{next_link, write_area};
use areas::link::{Spot, locate, spot_of};
use events::event::Stop;
use fields::link::{Link, link_of};
use memory::address::Address;
use registers::{CORE, FCX, ICR, LCX, PCXI, Registers};

// What a save comes to that does not stop.
#[derive(Clone, Copy)]
pub enum Saved {
    Done,
    // the area taken is the one that LCX names: an FCD entry follows, and there is an area for it
    Depleted,
}

// The area that a link names, for a save.
pub fn find(
    base: Address,
    window: &[u8],
    base2: Address,
    window2: &[u8],
    l: Link,
) -> Result<usize, Stop>
    ensures { result ≡ room_of (lent base window.now base2 window2.now) l }
{
    if l.0 == 0 {
        return Err(Stop::NoArea);
    }
    locate(base, window, base2, window2, l).ok_or(Stop::Outside)
}

// Whether an FCD entry follows the save of the area at FCX, and whether there is an area for it.
#[inline(always)]
fn foresee(
    base: Address,
    window: &[u8],
    base2: Address,
    window2: &[u8],
    core: &[u32; CORE],
    next: Link,
) -> Result<Saved, Stop>
    ensures { result ≡ foreseen_of core.now (lent base window.now base2 window2.now) next }
{
    let taken = link_of(core[FCX]);
    let limit = link_of(core[LCX]);
    if taken.0 != limit.0 {
        return Ok(Saved::Done);
    }
    find(base, window, base2, window2, next)?;
    Ok(Saved::Depleted)
}

// Takes the area: the context is written, PCXI names the area, and FCX the next one.
pub fn take(
    window: &mut [u8],
    window2: &mut [u8],
    core: &mut [u32; CORE],
    at: Spot,
    half: Half,
    words: [u32; 16],
    next: Link,
)
    requires { LiesIn (length window.old) (length window2.old) 64 at }
    ensures taken { taken core.new (window.new ++ window2.new) ≡ taken (heads_of half next core.old) (put_words (window.old ++ window2.old) (offset (length window.old) at) words 16) }
    ensures length_kept { length window.new ≡ length window.old }
{
    write_area(window, window2, at, words);
    core[PCXI] = fields::pcxi::saved(core[ICR], ul(half), link_of(core[FCX]));
    core[FCX] = next.0;
}

// A save of a half of the context, with the saved PC of a lower one. Nothing is written before it is known that neither it nor an FCD entry after it stops.
#[inline(always)]
pub fn save(
    base: Address,
    window: &mut [u8],
    base2: Address,
    window2: &mut [u8],
    registers: &mut Registers,
    half: Half,
    pc: u32,
) -> Result<Saved, Stop>
    ensures saved { saving result registers.new.core (lent base window.new base2 window2.new) ≡ save_of half (context_of half pc registers.old) registers.old.core (lent base window.old base2 window2.old) }
    ensures others_kept { registers.new ≡ with_cores registers.new.core registers.old }
{
    let l = link_of(registers.core[FCX]);
    find(base, window, base2, window2, l)?;
    let at = spot_of(base, window, base2, window2, l);
    let next = next_link(base, window, base2, window2, l);
    let saved = foresee(base, window, base2, window2, &registers.core, next)?;
    let words = context(registers, half, pc);
    take(window, window2, &mut registers.core, at, half, words, next);
    Ok(saved)
}
