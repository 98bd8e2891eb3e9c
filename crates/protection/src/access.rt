// What protection says of an access: the traps of class 1.

ghost use Rattle.std.specs.Prelude.{◌≡◌};
ghost use Rattle.protection.specs.Access.{denied_of, peripheral, permit_of, check_of};

use crate::range::{Range, Right, search};
use events::trap::{MPP, MPR, MPW, MPX, Trap};
use memory::address::Address;
use registers::{CORE, PSW, SYSCON};

// The trap of an access that no range permits.
fn denied(right: Right) -> Trap
    ensures { result ≡ denied_of right }
{
    match right {
        Right::Read => MPR,
        Right::Write => MPW,
        Right::Execute => MPX,
    }
}

// The two upper segments, E and F, are those of the peripherals.
fn is_peripheral(address: Address) -> bool
    ensures { result ≡ peripheral address }
{
    0xE000_0000 <= address.0
}

// The lowest range of set PRS that permits the access, where the ranges are asked and one does.
pub fn permit_for(
    core: &[u32; CORE],
    ranges: &[Range; 32],
    right: Right,
    address: Address,
) -> Option<usize>
    ensures { result ≡ permit_of core.now ranges.now right address }
{
    if is_peripheral(address) {
        return None;
    }
    if !fields::syscon::protection(core[SYSCON]) {
        return None;
    }
    let set = fields::psw::protection_set(core[PSW]);
    search(ranges, set, right, address)
}

// Checks the access to an address.
pub fn check_access(
    core: &[u32; CORE],
    ranges: &[Range; 32],
    right: Right,
    address: Address,
) -> Result<(), Trap>
    ensures { result ≡ check_of core.now ranges.now right address }
{
    if is_peripheral(address) {
        if fields::psw::user0(core[PSW]) {
            return Err(MPP);
        }
        return Ok(());
    }
    if !fields::syscon::protection(core[SYSCON]) {
        return Ok(());
    }
    match search(
        ranges,
        fields::psw::protection_set(core[PSW]),
        right,
        address,
    ) {
        None => Err(denied(right)),
        Some(_) => Ok(()),
    }
}
