// The pool walk: reads an image from standard input and prints its walk.

#![tactic(auto)]

ghost use Rattle.std.specs.Prelude.{◌≤◌, length, IfOk};

use std::io::{self, Read, Write};
use walk::blocks::{begin, go_on};
use walk::start::{image_in, input_buffer};

// No contract can say what is read or written. Taken on trust, and held by tests/pool alone: that `read` fills what it is lent from
// standard input as far as it answers, that `write_all` writes what it is lent, and that the functions below call them so: the whole
// buffer is lent, and each block's bytes are written once, in order, to the walk's end.
// Proved is what the blocks hold, that the walk ends, and that the input past the buffer changes nothing.
fn main(rt: HostRuntime) -> io::Result<()> {
    let mut input = input_buffer();
    let n = read_full(&rt, &mut input)?;
    print_walk(&rt, image_in(&input, n))
}

// Fills the buffer from standard input as far as both go, and answers how many bytes came.
fn read_full(rt: &impl Input, buffer: &mut [u8]) -> io::Result<usize>
    ensures { IfOk result (λ n. n ≤ length buffer.new) }
{
    let mut reader = rt.reader();
    let mut filled = 0usize;
    while filled < buffer.len() {
        let n = reader.read(&mut buffer[filled..])?;
        if n == 0 {
            break;
        }
        filled += n;
    }
    Ok(filled)
}

fn print_walk(rt: &impl Print, image: &[u8]) -> io::Result<()> {
    let mut writer = io::writer(rt);
    let mut out = [0u8; 65536];
    let mut w = begin(image, &mut out);
    loop {
        let n = w.len;
        writer.write_all(&out[..n])?;
        if w.over {
            return Ok(());
        }
        w = go_on(image, w, &mut out);
    }
}
