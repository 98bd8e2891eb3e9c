// The area that a link names: a part of whichever window has it.

ghost use Rattle.std.specs.Prelude.{◌≡◌, ◌++◌, length};
ghost use Rattle.fields.specs.Link.{link_of};
ghost use Rattle.memory.specs.Memory.{lent};
ghost use Rattle.memory.specs.Word.{word_at, put_word, put_words};
ghost use Rattle.areas.specs.Place.{Lies, LiesIn, offset};
ghost use Rattle.areas.specs.Area.{area_of};

use crate::link::{Spot, spot_of};
use fields::link::{Link, link_of};
use memory::address::Address;
use memory::{put_word, put_words, word_at};

// The area that a link names: the 64 bytes of the lent memory themselves, or the empty part where neither window has it.
pub fn area<'a>(
    base: Address,
    window: &'a [u8],
    base2: Address,
    window2: &'a [u8],
    l: Link,
) -> &'a [u8]
    ensures { result.now ≡ area_of (lent base window.now base2 window2.now) l }
{
    match spot_of(base, window, base2, window2, l) {
        Spot::First(at) => &window[at..at + 64],
        Spot::Second(at) => &window2[at..at + 64],
        Spot::Neither => &window[0..0],
    }
}

// The link in the area's first word: the next area of its list.
pub fn next_link<'a>(
    base: Address,
    window: &'a [u8],
    base2: Address,
    window2: &'a [u8],
    l: Link,
) -> Link
    requires { Lies (lent base window.now base2 window2.now) l }
    ensures { result ≡ link_of (word_at (area_of (lent base window.now base2 window2.now) l) 0) }
{
    link_of(word_at(area(base, window, base2, window2, l), 0))
}

// Writes the sixteen words of an area, upward. The area is lent in place.
pub fn write_area(window: &mut [u8], window2: &mut [u8], at: Spot, words: [u32; 16])
    requires { LiesIn (length window.old) (length window2.old) 64 at }
    ensures written { window.new ++ window2.new ≡ put_words (window.old ++ window2.old) (offset (length window.old) at) words 16 }
    ensures length_kept { length window.new ≡ length window.old }
{
    match at {
        Spot::First(k) => put_words(&mut window[k..k + 64], 0, &words, 16),
        Spot::Second(k) => put_words(&mut window2[k..k + 64], 0, &words, 16),
        Spot::Neither => {}
    }
}

// Writes the first word of an area, its link word. The area is lent in place.
pub fn write_link(window: &mut [u8], window2: &mut [u8], at: Spot, word: u32)
    requires { LiesIn (length window.old) (length window2.old) 64 at }
    ensures written { window.new ++ window2.new ≡ put_word (window.old ++ window2.old) (offset (length window.old) at) word }
    ensures length_kept { length window.new ≡ length window.old }
{
    match at {
        Spot::First(k) => put_word(&mut window[k..k + 64], 0, word),
        Spot::Second(k) => put_word(&mut window2[k..k + 64], 0, word),
        Spot::Neither => {}
    }
}
