// A return: the area at PCXI's link is loaded, and goes first on the free list.

ghost use Rattle.std.specs.Prelude.{◌≡◌, ◌++◌, length, Some};
ghost use Rattle.memory.specs.Memory.{lent};
ghost use Rattle.fields.specs.Link.{link_of};
ghost use Rattle.areas.specs.Place.{place_of, LiesIn, offset};
ghost use Rattle.registers.specs.Registers.{pcxi};
ghost use Rattle.contexts.specs.Restore.{half_of, loaded, loaded_of, returning, return_of};

use crate::context::Half;
use areas::area::{area, write_link};
use areas::link::{Spot, locate, spot_of};
use events::event::Stop;
use fields::link::link_of;
use memory::address::Address;
use memory::{read_words, word_at};
use registers::{FCX, PCXI, PSW, Registers};

// The registers of a half, from the bytes of its area. Of a lower context the saved PC is passed over.
#[inline(always)]
fn read_half(bytes: &[u8], registers: &mut Registers, half: Half)
    requires { length bytes.now ≡ 64 }
    ensures { registers.new ≡ half_of half bytes.now registers.old }
{
    match half {
        Half::Upper => {
            // A10 to A15, D8 to D15
            read_words(bytes, 8, &mut registers.a, 10, 6);
            read_words(bytes, 32, &mut registers.d, 8, 8);
            registers.core[PSW] = word_at(bytes, 4);
        }
        Half::Lower => {
            // A2 to A7, D0 to D7
            read_words(bytes, 8, &mut registers.a, 2, 6);
            read_words(bytes, 32, &mut registers.d, 0, 8);
        }
    }
}

// Loads a half of the context from the area at PCXI's link, and links the area to the free list.
#[inline(always)]
fn load(
    base: Address,
    window: &mut [u8],
    base2: Address,
    window2: &mut [u8],
    registers: &mut Registers,
    at: Spot,
    half: Half,
)
    requires lies { LiesIn (length window.old) (length window2.old) 64 at }
    requires found { place_of (lent base window.old base2 window2.old) (link_of (pcxi registers.old)) ≡ Some (offset (length window.old) at) }
    ensures loaded { loaded registers.new (window.new ++ window2.new) ≡ loaded_of half (offset (length window.old) at) registers.old (window.old ++ window2.old) }
    ensures length_kept { length window.new ≡ length window.old }
{
    let l = link_of(registers.core[PCXI]);
    let free = registers.core[FCX];
    let bytes = area(base, window, base2, window2, l);
    read_half(bytes, registers, half);
    registers.core[PCXI] = word_at(bytes, 0);
    registers.core[FCX] = l.0;
    write_link(window, window2, at, free);
}

// Returns to a half of the context: a stop where the area lies in neither window.
#[inline(always)]
pub fn restore(
    base: Address,
    window: &mut [u8],
    base2: Address,
    window2: &mut [u8],
    registers: &mut Registers,
    half: Half,
) -> Result<(), Stop>
    ensures { returning result registers.new (lent base window.new base2 window2.new) ≡ return_of half registers.old (lent base window.old base2 window2.old) }
{
    let link = link_of(registers.core[PCXI]);
    let Some(_) = locate(base, window, base2, window2, link) else {
        return Err(Stop::Outside);
    };
    let at = spot_of(base, window, base2, window2, link);
    load(base, window, base2, window2, registers, at, half);
    Ok(())
}
