// The lists of context save areas and their check: each link lies in one of the two windows, and no area is met a second time.

#![tactic(auto)]

ghost use Rattle.std.specs.Prelude.{◌≡◌, ◌++◌, ◌≤◌, length};
ghost use Rattle.memory.specs.Memory.{lent};
ghost use Rattle.lists.specs.Walk.{list_walk, walked, lists_of};
ghost use Rattle.lists.specs.Lists.{ListsCome};
ghost use Rattle.words.specs.Exactly.{Exactly};

use areas::area::next_link;
use areas::link::locate;
use fields::link::{Link, link_of};
use memory::address::Address;

// What a list can be refused for. One without a fault ends in link 0.
#[derive(Clone, Copy)]
pub enum ListFault {
    // a link lies in neither window: 5
    LinkOutside,
    // an area is met a second time: 6
    MetAgain,
}

// Follows the list from the link on. `met` says of each area of the two windows whether it was met, here or before.
fn walk<'a>(
    base: Address,
    window: &'a [u8],
    base2: Address,
    window2: &'a [u8],
    head: Link,
    met: &mut [bool; 2048],
) -> Result<(), ListFault>
    requires { (length (window.now ++ window2.now) ≤ 131072) × (length met.old ≡ 2048) }
    ensures { walked result met.new ≡ list_walk 2049 (lent base window.now base2 window2.now) head met.old }
{
    let mut l = head;
    while l.0 != 0 {
        let Some(at) = locate(base, window, base2, window2, l) else {
            return Err(ListFault::LinkOutside);
        };
        let k = at / 64;
        if met[k] {
            return Err(ListFault::MetAgain);
        }
        met[k] = true;
        l = next_link(base, window, base2, window2, l);
    }
    Ok(())
}

// The free list from FCX, then the used one from PCXI.
pub fn check<'a>(
    base: Address,
    window: &'a [u8],
    base2: Address,
    window2: &'a [u8],
    fcx: u32,
    pcxi: u32,
) -> Result<(), ListFault>
    requires { length (window.now ++ window2.now) ≤ 131072 }
    ensures { (result ≡ lists_of (lent base window.now base2 window2.now) fcx pcxi) × Exactly (ListsCome (lent base window.now base2 window2.now) fcx pcxi) result }
{
    let mut met = [false; 2048];
    walk(base, window, base2, window2, link_of(fcx), &mut met)?;
    walk(base, window, base2, window2, link_of(pcxi), &mut met)
}
