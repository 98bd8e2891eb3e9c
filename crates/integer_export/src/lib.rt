// The integer operations for the tests: one exported function on numbers.

#![tactic(auto)]

ghost use Rattle.std.specs.Prelude.{◌≡◌};
ghost use Rattle.integer_export.specs.Export.{packed_of, export_of};

use integer::{Computed, compute};
use operations::{Operation, decode};

// The operation of an operation byte on the operands a and b: PSW afterwards in the high word of the answer, the result in the low one. 0 for a byte that is no integer operation's.
#[unsafe(no_mangle)]
pub extern "C" fn deqbaryn_integer(byte: u8, a: u32, b: u32, psw: u32) -> u64
    ensures { result ≡ export_of byte a b psw }
{
    match decode(byte) {
        Operation::Integer(op) => packed(compute(op, a, b, psw)),
        Operation::Nop => 0,
        Operation::Move(_) => 0,
        Operation::Load(_) => 0,
        Operation::Store(_) => 0,
        Operation::Jump(_) => 0,
        Operation::Context(_) => 0,
        Operation::System(_) => 0,
    }
}

fn packed(r: Computed) -> u64
    ensures { result ≡ packed_of r }
{
    r.psw as u64 * 0x1_0000_0000 + r.word as u64
}
