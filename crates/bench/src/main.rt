// Document 01's bench values, AV of ADDS by 02, point 3, computed and printed. The file stdout has the values that the documents give.

#![tactic(auto)]

ghost use Rattle.bench.specs.Starred.{Starred};
ghost use Rattle.bench.specs.Accepted.{PoolAccepted};

use areas::link::area_address;
use fields::link::Link;
use integer::{Integer, compute};
use interrupts::taken;
use memory::address::Address;
use protection::range::{Range, Right, search};
use std::io::{self, Write};

fn main(rt: HostRuntime) -> io::Result<()> {
    starred();
    accepted();
    integer_values(&rt)?;
    link_values(&rt)?;
    range_values(&rt)?;
    interrupt_values(&rt)
}

// The table of the starred values, proved of the definitions that the contracts cite.
fn starred()
    ensures { Starred }
{}

// Document 01's image of CALL and RET is accepted with the pool walk's window and state.
fn accepted()
    ensures { PoolAccepted }
{}

fn link_values(rt: &impl Print) -> io::Result<()> {
    text(rt, b"link: address\n")?;
    word(rt, 0xD_0001)?;
    text(rt, b": ")?;
    let a = area_address(Link(0xD_0001));
    word(rt, a.0)?;
    text(rt, b"\n")
}

// A range from D0000100 to D0000200 that may be read, the first one of set 0.
fn range_values(rt: &impl Print) -> io::Result<()> {
    text(rt, b"range D0000100 to D0000200: read\n")?;
    let none = Range {
        lower: 0,
        upper: 0,
        mode: 0,
    };
    let mut ranges = [none; 32];
    ranges[0] = Range {
        lower: 0xD000_0100,
        upper: 0xD000_0200,
        mode: 0x40,
    };
    let inside = search(&ranges, 0, Right::Read, Address(0xD000_01FF));
    range_row(rt, 0xD000_01FF, inside)?;
    let outside = search(&ranges, 0, Right::Read, Address(0xD000_0200));
    range_row(rt, 0xD000_0200, outside)
}

fn range_row(rt: &impl Print, address: u32, found: Option<usize>) -> io::Result<()> {
    word(rt, address)?;
    match found {
        Some(_) => text(rt, b": in\n"),
        None => text(rt, b": out\n"),
    }
}

fn interrupt_values(rt: &impl Print) -> io::Result<()> {
    text(rt, b"priority with CCPN 5 and IE 1: taken\n")?;
    interrupt_row(rt, 5)?;
    interrupt_row(rt, 6)
}

fn interrupt_row(rt: &impl Print, level: u8) -> io::Result<()> {
    word(rt, level as u32)?;
    text(rt, b":")?;
    flag(rt, taken(0x105, level) as u32)?;
    text(rt, b"\n")
}

fn integer_values(rt: &impl Print) -> io::Result<()> {
    text(rt, b"operation first second: result C V SV AV SAV\n")?;
    row(rt, b"ADD", Integer::Add, 0x7FFF_FFFF, 1)?;
    row(rt, b"ADDS", Integer::Adds, 0x8000_0000, 0x8000_0000)?;
    // by -31
    row(rt, b"SHA", Integer::Sha, 0x8000_0000, 0xFFFF_FFE1)?;
    // by -32
    row(rt, b"SH", Integer::Sh, 0xFFFF_FFFF, 0xFFFF_FFE0)?;
    row(rt, b"ABS", Integer::Abs, 0x8000_0000, 0)?;
    row(rt, b"MUL", Integer::Mul, 0x1_0000, 0x1_0000)?;
    row(rt, b"CLS", Integer::Cls, 0, 0)?;
    row(rt, b"CLZ", Integer::Clz, 0, 0)?;
    row(rt, b"LT", Integer::Lt, 0xFFFF_FFFF, 0)?;
    row(rt, b"LT.U", Integer::LtU, 0xFFFF_FFFF, 0)
}

// An operation from a PSW of 0.
fn row(rt: &impl Print, name: &[u8], op: Integer, a: u32, b: u32) -> io::Result<()> {
    text(rt, name)?;
    text(rt, b" ")?;
    word(rt, a)?;
    text(rt, b" ")?;
    word(rt, b)?;
    text(rt, b": ")?;
    let r = compute(op, a, b, 0);
    word(rt, r.word)?;
    let psw = r.psw;
    flag(rt, psw / 0x8000_0000)?;
    flag(rt, psw / 0x4000_0000)?;
    flag(rt, psw / 0x2000_0000)?;
    flag(rt, psw / 0x1000_0000)?;
    flag(rt, psw / 0x0800_0000)?;
    text(rt, b"\n")
}

fn text(rt: &impl Print, s: &[u8]) -> io::Result<()> {
    io::writer(rt).write_all(s)
}

fn word(rt: &impl Print, w: u32) -> io::Result<()> {
    text(rt, &text::hex(w))
}

fn flag(rt: &impl Print, n: u32) -> io::Result<()> {
    if n % 2 == 1 {
        text(rt, b" 1")
    } else {
        text(rt, b" 0")
    }
}
