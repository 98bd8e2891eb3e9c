// The start of a walk: the image's buffer, the areas of the window linked ascending, and the registers.

ghost use Rattle.std.specs.Prelude.{ℕ, ◌+◌, ◌≤◌, ◌≡◌, List, length, replicate, take};
ghost use Rattle.walk.specs.Start.{link_after, start_bytes, first_address, start_registers, no_ranges};
ghost use Rattle.walk.specs.Walk.{longest, walk_of};

use memory::address::Address;
use memory::{put_word, word_at};
use protection::range::Range;
use registers::Registers;

// The address of the window.
pub const BASE: Address = Address(0xD000_0000);

// Room for the longest image and one byte more. Of any input, as much of it as fits here prints what the whole prints.
pub fn input_buffer() -> [u8; 65537]
    ensures blank { result ≡ replicate (longest + 1) 0 }
    ensures same_walk { (given : List ℕ) → walk_of (take (length result) given) ≡ walk_of given }
{
    [0; 65537]
}

// The image in such a buffer, and in no shorter one: the n bytes that were read into it.
pub fn image_in(input: &[u8], n: usize) -> &[u8]
    requires { (length input.now ≡ longest + 1) × (n ≤ length input.now) }
    ensures { result.now ≡ take n input.now }
{
    &input[..n]
}

// The link in area k's first word.
fn link_after(k: usize) -> u32
    ensures { result ≡ link_after k }
{
    if k < 63 {
        return 0xD_0001 + k as u32;
    }
    0
}

// The window: 64 areas linked ascending, all else 0.
pub fn start_window() -> [u8; 4096]
    ensures { result ≡ start_bytes }
{
    let mut bytes = [0; 4096];
    for k in 0..64 {
        put_word(&mut bytes, 64 * k, link_after(k));
    }
    bytes
}

// The image's first load address.
pub fn first_address(image: &[u8]) -> u32
    ensures { result ≡ first_address image.now }
{
    if image.len() < 8 {
        return 0;
    }
    word_at(image, 4)
}

// The registers: PC, PSW, FCX and BTV as document 01 gives them, the rest 0.
pub fn start_registers(image: &[u8]) -> Registers
    ensures { result ≡ start_registers image.now }
{
    let pc = first_address(image);
    Registers {
        d: [0; 16],
        a: [0; 16],
        core: [pc, 0xB80, 0, 0xD_0000, 0, 0, 0, 0, 0x8001_0000, 0],
    }
}

// The protection ranges, all 0.
pub fn no_ranges() -> [Range; 32]
    ensures { result ≡ no_ranges }
{
    let none = Range {
        lower: 0,
        upper: 0,
        mode: 0,
    };
    [none; 32]
}
