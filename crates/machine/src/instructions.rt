// Instructions of an accepted machine, between interrupts, over the registers by reference.

ghost use Rattle.std.specs.Prelude.{◌≡◌, ◌<◌, Ok};
ghost use Rattle.memory.specs.Memory.{lent};
ghost use Rattle.machine.specs.Inner.{Ready, paced_after, Paces};
ghost use Rattle.image.specs.Marks.{Guides};
ghost use Rattle.spans.specs.Spans.{LiesAhead};

use entries::entry::trap;
use events::event::{Event, Stop};
use execute::{ending_of, execute_instruction, steady};
use image::fetch::{index_from, next_after, read_record};
use image::marks::Guide;
use memory::address::Address;
use protection::range::Range;
use registers::{PC, Registers};
use spans::index::place_at;
use spans::{Span, look_ahead};

// How some steps ended, and how many are left to make.
#[derive(Clone, Copy)]
pub struct Paced {
    pub ending: Result<Event, Stop>,
    pub left: u32,
}

// Instructions of a span from PC on, up to n: to the first that is not steady, or whose successor lies outside the span. Long records are found by their index k from one byte on, and end 4 addresses on; that sum stands before the test, where it costs least. Others are found by their byte, and the address after one is kept for finding its successor.
fn steady_steps(
    base: Address,
    window: &mut [u8],
    base2: Address,
    window2: &mut [u8],
    image: &[u8],
    guide: Guide,
    marks: &[u64],
    registers: &mut Registers,
    ranges: &[Range; 32],
    s: Span,
    n: u32,
) -> Paced
    requires ready { Ready image.now registers.old (lent base window.old base2 window2.old) }
    requires guides { Guides image.now guide marks.now }
    requires lies_ahead { LiesAhead image.now guide.long registers.old.core ranges.now (Ok s) }
    requires n_nonzero { 0 < n }
    ensures { Paces n image.now ranges.now registers.old (lent base window.old base2 window2.old) result registers.new (lent base window.new base2 window2.new) }
{
    let mut at = s.at;
    let mut left = n;
    let mut k: u32 = 0;
    let mut next = next_after(image, at, s.from);
    let mut after = next;
    // No `for`: the turn ends at one of four tests, of which the count is one.
    loop {
        let i = read_record(image, at + 8 * k as usize, next);
        let done = execute_instruction(base, window, base2, window2, registers, ranges, i);
        let ending = ending_of(done);
        let Ok(_) = ending else {
            return Paced { ending, left };
        };
        left -= 1;
        if left == 0 {
            return Paced { ending, left };
        }
        if !steady(done) {
            return Paced { ending, left };
        }
        let pc = registers.core[PC];
        k = index_from(s.from, pc);
        next = std::num::wrapping_add_u32(pc, 4);
        if k < s.long {
            continue;
        }
        at = place_at(image, guide, marks, s, at, after, pc);
        if s.end <= at {
            return Paced { ending, left };
        }
        k = 0;
        next = next_after(image, at, pc);
        after = next;
    }
}

// One step of n that ended so.
fn after_one(ending: Result<Event, Stop>, n: u32) -> Paced
    requires { 0 < n }
    ensures { result ≡ paced_after ending n }
{
    let left = if ending.is_ok() { n - 1 } else { n };
    Paced { ending, left }
}

// Up to n instructions, where no interrupt is taken before the first: at least one, unless it stops.
pub fn instructions(
    base: Address,
    window: &mut [u8],
    base2: Address,
    window2: &mut [u8],
    image: &[u8],
    guide: Guide,
    marks: &[u64],
    registers: &mut Registers,
    ranges: &[Range; 32],
    n: u32,
) -> Paced
    requires ready { Ready image.now registers.old (lent base window.old base2 window2.old) }
    requires guides { Guides image.now guide marks.now }
    requires n_nonzero { 0 < n }
    ensures { Paces n image.now ranges.now registers.old (lent base window.old base2 window2.old) result registers.new (lent base window.new base2 window2.new) }
{
    match look_ahead(image, guide, marks, &registers.core, ranges) {
        Err(t) => {
            let pc = registers.core[PC];
            after_one(trap(base, window, base2, window2, registers, t, pc), n)
        }
        Ok(s) => steady_steps(
            base, window, base2, window2, image, guide, marks, registers, ranges, s, n,
        ),
    }
}
