// Where an access reaches in the windows, or the trap that it takes.

ghost use Rattle.std.specs.Prelude.{◌≡◌, ◌++◌, length, ◌<◌};
ghost use Rattle.memory.specs.Memory.{windows};
ghost use Rattle.accesses.specs.Reach.{data_address, aligned_reach, reach_of};

use areas::link::place_at;
use events::trap::{ALN, DATA, GRWP, Trap};
use memory::address::{Address, as_address};
use protection::access::check_access;
use protection::range::{Range, Right};
use registers::{CORE, plus};

// The address of a load's or a store's data: A[a] plus immediate, modulo 2^32.
pub fn data_address(register: u32, imm: u32) -> Address
    ensures { result ≡ data_address register imm }
{
    as_address(plus(register, imm))
}

// Of an access that protection permits.
#[tactic(auto, unfolding(crate::specs::Reach::aligned_reach))]
fn reach_aligned(
    base: Address,
    window: &[u8],
    base2: Address,
    window2: &[u8],
    guarded: bool,
    size: u8,
    alignment: u32,
    address: Address,
) -> Result<usize, Trap>
    requires { 0 < alignment }
    ensures { result ≡ aligned_reach (windows base (length window.now) base2) (length (window.now ++ window2.now)) guarded size alignment address }
{
    if guarded {
        return Err(GRWP);
    }
    if address.0 % alignment != 0 {
        return Err(ALN);
    }
    place_at(base, window, base2, window2, size, address).ok_or(DATA)
}

// An access of some bytes to an address, in one of the two windows. `guarded` says that GW forbids the register that it writes. Inlined: where it is called, size and alignment are constants.
#[inline(always)]
#[tactic(auto, unfolding(crate::specs::Reach::reach_of))]
pub fn reach_data(
    base: Address,
    window: &[u8],
    base2: Address,
    window2: &[u8],
    core: &[u32; CORE],
    ranges: &[Range; 32],
    right: Right,
    guarded: bool,
    size: u8,
    alignment: u32,
    address: Address,
) -> Result<usize, Trap>
    requires { 0 < alignment }
    ensures { result ≡ reach_of (windows base (length window.now) base2) (length (window.now ++ window2.now)) core.now ranges.now right guarded size alignment address }
{
    check_access(core, ranges, right, address)?;
    reach_aligned(
        base, window, base2, window2, guarded, size, alignment, address,
    )
}
