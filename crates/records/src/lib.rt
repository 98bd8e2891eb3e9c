// The core record of a host: 154 little-endian words. D0 to D15, A0 to A15, the ten core registers, the request words of the 16 sources, and the 32 ranges of three words each.

#![tactic(auto)]

ghost use Rattle.std.specs.Prelude.{◌≡◌, ◌+◌, ◌*◌, ◌≤◌, length};
ghost use Rattle.memory.specs.Word.{words_at, put_words};
ghost use Rattle.records.specs.CoreRecord.{registers_in, requests_in, ranges_of, stored_in};

use memory::{put_words, read_words, word_at};
use protection::range::Range;
use registers::Registers;

// The N words from byte `at` on.
fn words_from<const N: usize>(core: &[u8], at: usize) -> [u32; N]
    requires { at + 4 * N ≤ length core.now }
    ensures { result ≡ words_at core.now at N }
{
    let mut words = [0; N];
    read_words(core, at, &mut words, 0, N);
    words
}

pub fn read_registers(core: &[u8]) -> Registers
    requires { length core.now ≡ 616 }
    ensures { result ≡ registers_in core.now }
{
    Registers {
        d: words_from(core, 0),
        a: words_from(core, 64),
        core: words_from(core, 128),
    }
}

pub fn read_requests(core: &[u8]) -> [u32; 16]
    requires { length core.now ≡ 616 }
    ensures { result ≡ requests_in core.now }
{
    words_from(core, 168)
}

pub fn read_ranges(core: &[u8]) -> [Range; 32]
    requires { length core.now ≡ 616 }
    ensures { result ≡ ranges_of core.now }
{
    let mut ranges = [Range {
        lower: 0,
        upper: 0,
        mode: 0,
    }; 32];
    for (k, range) in ranges.iter_mut().enumerate() {
        *range = Range {
            lower: word_at(core, 232 + 12 * k),
            upper: word_at(core, 236 + 12 * k),
            mode: word_at(core, 240 + 12 * k),
        };
    }
    ranges
}

// Writes sixteen words from byte `at` on. A function of its own: with `put_words` in its place a single step moves more copies of the registers.
fn put_sixteen(core: &mut [u8], at: usize, words: &[u32; 16])
    requires { at + 64 ≤ length core.old }
    ensures { core.new ≡ put_words core.old at words.now 16 }
{
    put_words(core, at, words, 16);
}

// Writes the registers and the request words; the ranges stay.
pub fn write_back(core: &mut [u8], registers: Registers, requests: [u32; 16])
    requires { length core.old ≡ 616 }
    ensures { core.new ≡ stored_in registers requests core.old }
{
    put_sixteen(core, 0, &registers.d);
    put_sixteen(core, 64, &registers.a);
    put_words(core, 128, &registers.core, 10);
    put_sixteen(core, 168, &requests);
}
