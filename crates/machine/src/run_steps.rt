// Steps of an accepted machine, over the registers by reference.

ghost use Rattle.std.specs.Prelude.{◌≡◌, Ok};
ghost use Rattle.memory.specs.Memory.{lent};
ghost use Rattle.machine.specs.Step.{outcome_of};
ghost use Rattle.machine.specs.Run.{ran, run_from};
ghost use Rattle.machine.specs.Inner.{foremost_of, Ready};
ghost use Rattle.image.specs.Marks.{Guides};
ghost use Rattle.events.specs.declared.event.Event.TheVariants as event;

use crate::instructions::instructions;
use entries::entry::interrupt;
use events::event::{Event, Stop, passed_on};
use image::marks::Guide;
use interrupts::{Best, best_source, clear, taken};
use memory::address::Address;
use protection::range::Range;
use registers::{ICR, Registers};

// The best source at the start of n steps. A single step with IE 0 takes none, and the sources are not looked through for it.
fn first_source(sources: &[u32; 16], icr: u32, n: u32) -> Best
    ensures { result ≡ foremost_of n icr sources.now }
{
    if n == 1 {
        if !fields::icr::enabled(icr) {
            return Best {
                source: 16,
                level: 0,
            };
        }
    }
    best_source(sources)
}

// How a run ended, and the steps made.
#[derive(Clone, Copy)]
pub struct Went {
    pub ending: Result<Event, Stop>,
    pub made: u32,
}

// n steps, to the first stop.
fn run_by_reference(
    base: Address,
    window: &mut [u8],
    base2: Address,
    window2: &mut [u8],
    image: &[u8],
    guide: Guide,
    marks: &[u64],
    registers: &mut Registers,
    requests: &mut [u32; 16],
    ranges: &[Range; 32],
    n: u32,
) -> Went
    requires ready { Ready image.now registers.old (lent base window.old base2 window2.old) }
    requires guides { Guides image.now guide marks.now }
    ensures { ran (outcome_of result.ending) result.made registers.new requests.new (lent base window.new base2 window2.new) ≡ run_from n image.now ranges.now (Ok event.Instruction) 0 registers.old requests.old (lent base window.old base2 window2.old) }
{
    let mut best = first_source(requests, registers.core[ICR], n);
    let mut last = Event::Instruction;
    let mut left = n;
    // No `for`: a turn makes one step or many.
    while left != 0 {
        if taken(registers.core[ICR], best.level) {
            let ending = passed_on(interrupt(
                base,
                window,
                base2,
                window2,
                registers,
                best.source,
                best.level,
            ));
            let Ok(e) = ending else {
                return Went {
                    ending,
                    made: n - left,
                };
            };
            last = e;
            left -= 1;
            clear(requests, best.source);
            best = best_source(requests);
            continue;
        }
        let p = instructions(
            base, window, base2, window2, image, guide, marks, registers, ranges, left,
        );
        let ending = p.ending;
        let Ok(e) = ending else {
            return Went {
                ending,
                made: n - p.left,
            };
        };
        last = e;
        left = p.left;
    }
    Went {
        ending: Ok(last),
        made: n,
    }
}

// The same. The registers are copied: the loop then works on variables that nothing else that is lent can overlap. Array by array, since the whole at once would be a call of memcpy, and the library asks a host for memset alone.
pub fn run_steps(
    base: Address,
    window: &mut [u8],
    base2: Address,
    window2: &mut [u8],
    image: &[u8],
    guide: Guide,
    marks: &[u64],
    registers: &mut Registers,
    requests: &mut [u32; 16],
    ranges: &[Range; 32],
    n: u32,
) -> Went
    requires ready { Ready image.now registers.old (lent base window.old base2 window2.old) }
    requires guides { Guides image.now guide marks.now }
    ensures { ran (outcome_of result.ending) result.made registers.new requests.new (lent base window.new base2 window2.new) ≡ run_from n image.now ranges.now (Ok event.Instruction) 0 registers.old requests.old (lent base window.old base2 window2.old) }
{
    let mut own = Registers {
        d: registers.d,
        a: registers.a,
        core: registers.core,
    };
    let w = run_by_reference(
        base, window, base2, window2, image, guide, marks, &mut own, requests, ranges, n,
    );
    registers.d = own.d;
    registers.a = own.a;
    registers.core = own.core;
    w
}
