// The registers of the core (002, chapter 3).

#![tactic(auto)]

ghost use Rattle.std.specs.Prelude.{◌≡◌, ◌≤◌};
ghost use Rattle.registers.specs.Core.{places};
ghost use Rattle.registers.specs.Registers.{second_of, plus_of, minus_of, new_pc, is_global, guards};

// How many words of the state stand with the core registers.
pub const CORE: usize = 10;

// D0 to D15, A0 to A15, and the core registers under the indices below.
#[derive(Clone, Copy)]
pub struct Registers {
    pub d: [u32; 16],
    pub a: [u32; 16],
    pub core: [u32; CORE],
}

pub const PC: usize = 0;

pub const PSW: usize = 1;

pub const PCXI: usize = 2;

pub const FCX: usize = 3;

pub const LCX: usize = 4;

pub const ICR: usize = 5;

pub const ISP: usize = 6;

pub const BIV: usize = 7;

pub const BTV: usize = 8;

pub const SYSCON: usize = 9;

// The places above. A constant has no contract of its own: this one holds each to its definition.
pub fn core_places() -> [usize; CORE]
    ensures { result ≡ places }
{
    [PC, PSW, PCXI, FCX, LCX, ICR, ISP, BIV, BTV, SYSCON]
}

// The second operand: register b, or the immediate where b is 16.
#[tactic(auto, unfolding(crate::specs::Registers::second_of))]
pub fn second(xs: &[u32; 16], b: usize, imm: u32) -> u32
    requires { b ≤ 16 }
    ensures { result ≡ second_of xs.now b imm }
{
    if b == 16 { imm } else { xs[b] }
}

// Addresses add and subtract modulo 2^32.
#[tactic(auto, unfolding(crate::specs::Registers::plus_of))]
pub fn plus(x: u32, y: u32) -> u32
    ensures { result ≡ plus_of x y }
{
    x.wrapping_add(y)
}

#[tactic(auto, unfolding(crate::specs::Registers::minus_of))]
pub fn minus(x: u32, y: u32) -> u32
    ensures { result ≡ minus_of x y }
{
    x.wrapping_sub(y)
}

// A new PC: bit 0 is cleared.
pub fn new_pc(pc: u32) -> u32
    ensures { result ≡ new_pc pc }
{
    pc / 2 * 2
}

// Whether an address register is global: A0, A1, A8 and A9.
#[tactic(auto, unfolding(crate::specs::Registers::is_global))]
fn global(n: usize) -> bool
    ensures { result ≡ is_global n }
{
    matches!(n, 0 | 1 | 8 | 9)
}

// Whether writing address register n traps: it is global, and GW is 0.
#[tactic(auto, unfolding(crate::specs::Registers::guards))]
pub fn guarded(psw: u32, n: usize) -> bool
    ensures { result ≡ guards psw n }
{
    global(n) && !fields::psw::global_writes(psw)
}
