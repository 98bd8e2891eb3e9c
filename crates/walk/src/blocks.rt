// The walk in blocks: each fills the buffer, which the program then writes out.

ghost use Rattle.std.specs.Prelude.{◌≡◌, false};
ghost use Rattle.walk.specs.Walk.{is_trap, walk_of};
ghost use Rattle.walk.specs.Blocks.{left, placed, begin_of, go_on_of, remaining, Part, Onward};

use crate::alone::{step_alone, try_alone};
use crate::lines::{put_end, put_header, put_line, put_long, put_refused, put_unmade};
use crate::start::{no_ranges, start_registers, start_window};
use events::event::Event;
use registers::{FCX, PC, PCXI, Registers};

// Where a walk stands after a block of len bytes.
#[derive(Drop)]
pub struct Walk {
    pub window: [u8; 4096],
    pub registers: Registers,
    pub requests: [u32; 16],
    pub made: u32,
    pub over: bool,
    pub len: usize,
}

const STEPS: u32 = 100_000;

// A buffer filled so far has room for a line and the end.
const FULL: usize = 65_408;

fn is_trap(e: Event) -> bool
    ensures { result ≡ is_trap e }
{
    matches!(e, Event::Trap(_))
}

// The first block: the header, or all that an image of another kind prints.
pub fn begin(image: &[u8], out: &mut [u8; 65536]) -> Walk
    ensures placed { left result out.new ≡ placed (begin_of image.now) out.old }
    ensures part { Part (walk_of image.now) image.now result out.new }
{
    let window = start_window();
    let registers = start_registers(image);
    let requests = [0; 16];
    if 65_536 < image.len() {
        let long = put_long(out, 0);
        return Walk {
            window,
            registers,
            requests,
            made: 0,
            over: true,
            len: long,
        };
    }
    if let Err(x) = try_alone(
        &window,
        image,
        registers.core[PC],
        registers.core[FCX],
        registers.core[PCXI],
    ) {
        let refused = put_refused(out, 0, x);
        return Walk {
            window,
            registers,
            requests,
            made: 0,
            over: true,
            len: refused,
        };
    }
    let header = put_header(out, 0);
    Walk {
        window,
        registers,
        requests,
        made: 0,
        over: false,
        len: header,
    }
}

// The next block of a walk that is not over.
pub fn go_on(image: &[u8], w: Walk, out: &mut [u8; 65536]) -> Walk
    requires { w.over ≡ false }
    ensures placed { left result out.new ≡ placed (go_on_of image.now w) out.old }
    ensures part { Part (remaining image.now w) image.now result out.new }
    ensures onward { Onward w result }
{
    let ranges = no_ranges();
    let mut window = w.window;
    let mut registers = w.registers;
    let mut requests = w.requests;
    let mut made = w.made;
    let mut at: usize = 0;
    // No `for`: `made` goes on from block to block, and what a call begins with may lie past STEPS.
    while made < STEPS {
        if FULL < at {
            return Walk {
                window,
                registers,
                requests,
                made,
                over: false,
                len: at,
            };
        }
        let pc = registers.core[PC];
        let s = step_alone(&mut window, image, registers, requests, ranges);
        registers = s.registers;
        requests = s.requests;
        match s.outcome {
            Ok(e) => {
                at = put_line(
                    out,
                    at,
                    e,
                    pc,
                    registers.core[PC],
                    registers.core[FCX],
                    registers.core[PCXI],
                );
                made += 1;
                if is_trap(e) {
                    let trapped = put_end(out, at, made);
                    return Walk {
                        window,
                        registers,
                        requests,
                        made,
                        over: true,
                        len: trapped,
                    };
                }
            }
            Err(u) => {
                let last = put_unmade(out, at, u, made);
                return Walk {
                    window,
                    registers,
                    requests,
                    made,
                    over: true,
                    len: last,
                };
            }
        }
    }
    let end = put_end(out, at, made);
    Walk {
        window,
        registers,
        requests,
        made,
        over: true,
        len: end,
    }
}
