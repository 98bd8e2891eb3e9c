// The ranges: four sets, each of four data ranges and then four code ranges.

ghost use Rattle.std.specs.Prelude.{◌≡◌, ◌<◌};
ghost use Rattle.words.specs.Exactly.{Exactly};
ghost use Rattle.protection.specs.Range.{enables, permits, first_of, lowest_of, Lowest};

use memory::address::Address;

// lower <= address < upper, with the mode's bits: RE 6 and WE 7 of a data range, XE 7 of a code range.
#[derive(Clone, Copy)]
pub struct Range {
    pub lower: u32,
    pub upper: u32,
    pub mode: u32,
}

#[derive(Clone, Copy)]
pub enum Right {
    Read,
    Write,
    Execute,
}

// Whether a range's mode has the right.
fn enabled(mode: u32, right: Right) -> bool
    ensures { result ≡ enables mode right }
{
    match right {
        Right::Read => mode / 0x40 % 2 == 1,
        Right::Write => mode / 0x80 % 2 == 1,
        Right::Execute => mode / 0x80 % 2 == 1,
    }
}

// Whether a range permits the access to an address. The mode is tried first: a range that is not in use has no right.
fn permitting(g: Range, right: Right, address: Address) -> bool
    ensures { result ≡ permits g right address }
{
    if !enabled(g.mode, right) {
        return false;
    }
    if address.0 < g.lower {
        return false;
    }
    address.0 < g.upper
}

// The number of a set's first range for the right.
fn first(set: usize, right: Right) -> usize
    requires { set < 4 }
    ensures { (result ≡ first_of set right) × (result < 29) }
{
    match right {
        Right::Read => 8 * set,
        Right::Write => 8 * set,
        Right::Execute => 8 * set + 4,
    }
}

// The lowest range of the set that permits the access to an address, by its number.
pub fn search(ranges: &[Range; 32], set: usize, right: Right, address: Address) -> Option<usize>
    requires { set < 4 }
    ensures { (result ≡ lowest_of ranges.now set right address) × Exactly (Lowest ranges.now set right address) result }
{
    let from = first(set, right);
    'found: {
        for i in 0..4 {
            let k = from + i;
            if permitting(ranges[k], right, address) {
                break 'found Some(k);
            }
        }
        None
    }
}
