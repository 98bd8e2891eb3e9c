// The lines, written one after the other into a buffer. Each function answers where its text ends.

ghost use Rattle.std.specs.Prelude.{◌+◌, ◌%◌, ◌≤◌, ◌<◌, ◌≡◌, length};
ghost use Rattle.walk.specs.Text.{header_text, name_of, field_of, line_of, digit_of, decimal_of, stop_of, end_of, refused_of, long_text};
ghost use Rattle.walk.specs.Walk.{unmade_of};
ghost use Rattle.walk.specs.Written.{Written};

use events::event::{Event, Stop, stop_number};
use inputs::verdict::{Refusal, fault, number};
use machine::answer::Unmade;
use text::hex;

// A text as it stands.
fn put(out: &mut [u8], at: usize, s: &[u8]) -> usize
    requires { at + length s.now ≤ length out.old }
    ensures { Written out.old at s.now (length s.now) out.new result }
{
    let end = at + s.len();
    out[at..end].copy_from_slice(s);
    end
}

fn put_name(out: &mut [u8], at: usize, e: Event) -> usize
    requires { at + 4 ≤ length out.old }
    ensures { Written out.old at (name_of e) 4 out.new result }
{
    match e {
        Event::Instruction => put(out, at, b"ins"),
        Event::Interrupt(_) => put(out, at, b"int"),
        Event::Trap(_) => put(out, at, b"trap"),
    }
}

// A word after a space.
fn put_field(out: &mut [u8], at: usize, w: u32) -> usize
    requires { at + 9 ≤ length out.old }
    ensures { Written out.old at (field_of w) 9 out.new result }
{
    let digits = hex(w);
    let next = put(out, at, b" ");
    put(out, next, &digits)
}

// The line of a step.
pub fn put_line(
    out: &mut [u8],
    at: usize,
    e: Event,
    pc: u32,
    next: u32,
    fcx: u32,
    pcxi: u32,
) -> usize
    requires { at + 41 ≤ length out.old }
    ensures { Written out.old at (line_of e pc next fcx pcxi) 41 out.new result }
{
    let named = put_name(out, at, e);
    let one = put_field(out, named, pc);
    let two = put_field(out, one, next);
    let three = put_field(out, two, fcx);
    let four = put_field(out, three, pcxi);
    put(out, four, b"\n")
}

// The digit of the place p, where n reaches it.
fn put_digit(out: &mut [u8], at: usize, n: u32, p: u32) -> usize
    requires { (0 < p) × (at + 1 ≤ length out.old) }
    ensures { Written out.old at (digit_of n p) 1 out.new result }
{
    if n < p {
        return at;
    }
    put(out, at, &[digit(n / p)])
}

// The lowest digit of n.
fn digit(n: u32) -> u8
    ensures { result ≡ 48 + n % 10 }
{
    b'0' + (n % 10) as u8
}

// A number with no zeros in front.
fn put_decimal(out: &mut [u8], at: usize, n: u32) -> usize
    requires { at + 10 ≤ length out.old }
    ensures { Written out.old at (decimal_of n) 10 out.new result }
{
    let a = put_digit(out, at, n, 1_000_000_000);
    let b = put_digit(out, a, n, 100_000_000);
    let c = put_digit(out, b, n, 10_000_000);
    let d = put_digit(out, c, n, 1_000_000);
    let e = put_digit(out, d, n, 100_000);
    let f = put_digit(out, e, n, 10_000);
    let g = put_digit(out, f, n, 1_000);
    let h = put_digit(out, g, n, 100);
    let i = put_digit(out, h, n, 10);
    put(out, i, &[digit(n)])
}

fn put_stop(out: &mut [u8], at: usize, s: Stop) -> usize
    requires { at + 16 ≤ length out.old }
    ensures { Written out.old at (stop_of s) 16 out.new result }
{
    let named = put(out, at, b"stop ");
    let next = put_decimal(out, named, stop_number(s));
    put(out, next, b"\n")
}

pub fn put_end(out: &mut [u8], at: usize, steps: u32) -> usize
    requires { at + 15 ≤ length out.old }
    ensures { Written out.old at (end_of steps) 15 out.new result }
{
    let named = put(out, at, b"end ");
    let next = put_decimal(out, named, steps);
    put(out, next, b"\n")
}

pub fn put_refused(out: &mut [u8], at: usize, x: Refusal) -> usize
    requires { at + 30 ≤ length out.old }
    ensures { Written out.old at (refused_of x) 30 out.new result }
{
    let named = put(out, at, b"refused ");
    let next = put_decimal(out, named, number(x));
    let space = put(out, next, b" ");
    let last = put_decimal(out, space, fault(x));
    put(out, last, b"\n")
}

// What a step that is not made prints.
pub fn put_unmade(out: &mut [u8], at: usize, u: Unmade, made: u32) -> usize
    requires { at + 31 ≤ length out.old }
    ensures { Written out.old at (unmade_of made u) 31 out.new result }
{
    match u {
        Unmade::Stopped(s) => {
            let stopped = put_stop(out, at, s);
            put_end(out, stopped, made)
        }
        Unmade::Refused(x) => put_refused(out, at, x),
    }
}

pub fn put_header(out: &mut [u8], at: usize) -> usize
    requires { at + 23 ≤ length out.old }
    ensures { Written out.old at header_text 23 out.new result }
{
    put(out, at, b"event pc next fcx pcxi\n")
}

pub fn put_long(out: &mut [u8], at: usize) -> usize
    requires { at + 5 ≤ length out.old }
    ensures { Written out.old at long_text 5 out.new result }
{
    put(out, at, b"long\n")
}
