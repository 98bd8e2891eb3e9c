// The ranges that permit a step's fetch and its data access: of set PRS the lowest.

#![tactic(auto)]

ghost use Rattle.std.specs.Prelude.{◌≡◌, true, ◌+◌, ◌≤◌, length};
ghost use Rattle.words.specs.Exactly.{Exactly};
ghost use Rattle.image.specs.Records.{ImageHolds};
ghost use Rattle.image.specs.Rest.{rest_of};
ghost use Rattle.image.specs.Marks.{long_only};
ghost use Rattle.image.specs.Fetch.{instruction_at, FieldsHold};
ghost use Rattle.registers.specs.Registers.{pc};
ghost use Rattle.decisions.specs.Beginning.{fetching_at, beginning_of};
ghost use Rattle.permits.specs.Permits.{access, data_in, fetch_asked, data_asked, permit_asked, permits_of, NamedFor};

use accesses::reach::data_address;
use image::fetch::{Rest, read_operand, rest_at, rest_long};
use interrupts::{best_source, taken};
use memory::address::as_address;
use operations::Access;
use protection::access::{check_access, permit_for};
use protection::range::{Range, Right};
use registers::{ICR, PC, Registers, SYSCON};

// The ranges named for a step's fetch and for its data access.
#[derive(Clone, Copy)]
pub struct Permits {
    pub fetch: Option<usize>,
    pub access: Option<usize>,
}

// Of the data access of the record at byte `at` of the image, which begins at pc.
fn permit_record(
    image: &[u8],
    registers: &Registers,
    ranges: &[Range; 32],
    at: usize,
    pc: u32,
) -> Option<usize>
    requires { (at + 8 ≤ length image.now) × FieldsHold (instruction_at image.now at pc) }
    ensures { result ≡ permit_asked registers.now.core ranges.now (data_in (instruction_at image.now at pc) registers.now.a) }
{
    let o = read_operand(image, at);
    let Some(access) = o.access else {
        return None;
    };
    let x = o.a;
    let address = data_address(registers.a[x], o.imm);
    match access {
        Access::Read => permit_for(&registers.core, ranges, Right::Read, address),
        Access::Write => permit_for(&registers.core, ranges, Right::Write, address),
    }
}

// The records from pc on. What is known of short forms makes it quick.
fn rest_of(image: &[u8], long: bool, pc: u32) -> Rest
    requires { ImageHolds image.now × (long ≡ true → long_only image.now ≡ true) }
    ensures { result ≡ rest_of image.now pc }
{
    if long {
        return rest_long(image, pc);
    }
    let none = [0; 1];
    rest_at(image, &none, 0, pc).rest
}

// Of the data access of the instruction at PC.
fn permit_data(
    image: &[u8],
    long: bool,
    registers: &Registers,
    ranges: &[Range; 32],
) -> Option<usize>
    requires { ImageHolds image.now × (long ≡ true → long_only image.now ≡ true) }
    ensures { result ≡ permit_asked registers.now.core ranges.now (data_asked registers.now.a (fetching_at image.now registers.now.core ranges.now (pc registers.now))) }
{
    let pc = registers.core[PC];
    let Ok(()) = check_access(&registers.core, ranges, Right::Execute, as_address(pc)) else {
        return None;
    };
    let rest = rest_of(image, long, pc);
    if rest.records == 0 {
        return None;
    }
    permit_record(image, registers, ranges, rest.at, pc)
}

// Of a step with these registers and requests.
pub fn permits_of(
    image: &[u8],
    long: bool,
    registers: &Registers,
    requests: &[u32; 16],
    ranges: &[Range; 32],
) -> Permits
    requires { ImageHolds image.now × (long ≡ true → long_only image.now ≡ true) }
    ensures permits { result ≡ permits_of image.now registers.now.a registers.now.core requests.now ranges.now }
    ensures fetch { Exactly (NamedFor registers.now.core ranges.now (fetch_asked (pc registers.now) (beginning_of image.now registers.now.core requests.now ranges.now))) result.fetch }
    ensures access { Exactly (NamedFor registers.now.core ranges.now (data_asked registers.now.a (beginning_of image.now registers.now.core requests.now ranges.now))) result.access }
{
    if !fields::syscon::protection(registers.core[SYSCON]) {
        return Permits {
            fetch: None,
            access: None,
        };
    }
    let best = best_source(requests);
    if taken(registers.core[ICR], best.level) {
        return Permits {
            fetch: None,
            access: None,
        };
    }
    Permits {
        fetch: permit_for(
            &registers.core,
            ranges,
            Right::Execute,
            as_address(registers.core[PC]),
        ),
        access: permit_data(image, long, registers, ranges),
    }
}
