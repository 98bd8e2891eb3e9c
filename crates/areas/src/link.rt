// A link counts areas of 64 bytes, an address counts bytes. Neither is taken for the other: `area_address` is the one translation.

ghost use Rattle.std.specs.Prelude.{◌≡◌, ◌++◌, length};
ghost use Rattle.memory.specs.Memory.{windows, lent};
ghost use Rattle.areas.specs.Link.{area_address};
ghost use Rattle.areas.specs.Place.{placed_in, spot_at, placed_at, spot_of, place_of};

use fields::link::Link;
use memory::address::Address;

// The address of a link's area: link bits 19:16 are address bits 31:28, link bits 15:0 are address bits 21:6.
pub fn area_address(l: Link) -> Address
    ensures { result ≡ area_address l }
{
    Address(l.0 / 0x1_0000 % 16 * 0x1000_0000 + l.0 % 0x1_0000 * 64)
}

// Where some bytes lie wholly: in the first window or the second, from that byte of it on, or in neither.
#[derive(Clone, Copy)]
pub enum Spot {
    First(usize),
    Second(usize),
    Neither,
}

// The place of some bytes from an address on, in a window of len bytes at base, if they lie in it.
#[tactic(auto, unfolding(crate::specs::Place::placed_in))]
fn place_in(base: Address, len: usize, size: u8, a: Address) -> Option<usize>
    ensures { result ≡ placed_in base len size a }
{
    let at = a.0.checked_sub(base.0)? as usize;
    (at + size as usize <= len).then_some(at)
}

// Whichever window has some bytes from an address on.
pub fn spot_at(
    base: Address,
    window: &[u8],
    base2: Address,
    window2: &[u8],
    size: u8,
    a: Address,
) -> Spot
    ensures { result ≡ spot_at (windows base (length window.now) base2) (length (window.now ++ window2.now)) size a }
{
    if let Some(at) = place_in(base, window.len(), size, a) {
        Spot::First(at)
    } else if let Some(at) = place_in(base2, window2.len(), size, a) {
        Spot::Second(at)
    } else {
        Spot::Neither
    }
}

// The place of some bytes from an address on, counted through the first window and then through the second, if they lie in one.
pub fn place_at(
    base: Address,
    window: &[u8],
    base2: Address,
    window2: &[u8],
    size: u8,
    a: Address,
) -> Option<usize>
    ensures { result ≡ placed_at (windows base (length window.now) base2) (length (window.now ++ window2.now)) size a }
{
    match spot_at(base, window, base2, window2, size, a) {
        Spot::First(at) => Some(at),
        Spot::Second(at) => Some(window.len() + at),
        Spot::Neither => None,
    }
}

// Whichever window has a link's area.
pub fn spot_of(base: Address, window: &[u8], base2: Address, window2: &[u8], l: Link) -> Spot
    ensures { result ≡ spot_of (lent base window.now base2 window2.now) l }
{
    spot_at(base, window, base2, window2, 64, area_address(l))
}

// The place of a link's area.
pub fn locate(
    base: Address,
    window: &[u8],
    base2: Address,
    window2: &[u8],
    l: Link,
) -> Option<usize>
    ensures { result ≡ place_of (lent base window.now base2 window2.now) l }
{
    place_at(base, window, base2, window2, 64, area_address(l))
}
