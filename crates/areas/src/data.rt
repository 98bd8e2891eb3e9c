// Data in whichever window has it.

ghost use Rattle.std.specs.Prelude.{◌≡◌, ◌++◌, ◌<◌, length};
ghost use Rattle.areas.specs.Place.{LiesIn, offset};

use crate::link::Spot;
use memory::width::Width;

// The data at a spot.
pub fn load<W: Width>(window: &[u8], window2: &[u8], at: Spot) -> u32
    requires { LiesIn (length window.now) (length window2.now) W.SIZE at }
    ensures { (result ≡ W.read (window.now ++ window2.now) (offset (length window.now) at)) × (result < W.limit) }
{
    match at {
        Spot::First(k) => W::read(window, k),
        Spot::Second(k) => W::read(window2, k),
        Spot::Neither => 0,
    }
}

// Writes the low bytes of w at a spot.
pub fn store<W: Width>(window: &mut [u8], window2: &mut [u8], at: Spot, w: u32)
    requires { LiesIn (length window.old) (length window2.old) W.SIZE at }
    ensures written { window.new ++ window2.new ≡ W.put (window.old ++ window2.old) (offset (length window.old) at) w }
    ensures length_kept { length window.new ≡ length window.old }
{
    match at {
        Spot::First(k) => W::put(window, k, w),
        Spot::Second(k) => W::put(window2, k, w),
        Spot::Neither => {}
    }
}
