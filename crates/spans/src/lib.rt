// The records at PC and after it that a run goes through without asking the table and the ranges again.

#![tactic(auto)]

pub mod index;

ghost use Rattle.std.specs.Prelude.{◌≡◌, ◌<◌, ◌≤◌, Ok};
ghost use Rattle.memory.specs.Address.{as_address};
ghost use Rattle.protection.specs.Access.{check_of};
ghost use Rattle.image.specs.Records.{ImageHolds};
ghost use Rattle.image.specs.Marks.{Guides};
ghost use Rattle.spans.specs.Spans.{records_below, fetchable_of, found_of, span_of, LiesAhead};

use events::trap::{CODE, Trap};
use image::fetch::{InBody, rest_at, rest_long};
use image::marks::{Guide, bias_of};
use image::table::read_entry;
use memory::address::as_address;
use protection::access::check_access;
use protection::range::{Range, Right, search};
use registers::{CORE, PC, PSW, SYSCON};

// So many records from an address on, from a byte of the image to another, and how many of them are known to be long: all or none. Where none is, also the body's entry, from 1, the index of the span's first record in the body, and what the body's marks stand by.
#[derive(Clone, Copy)]
pub struct Span {
    pub from: u32,
    pub records: u32,
    pub at: usize,
    pub end: usize,
    pub long: u32,
    pub entry: u32,
    pub first: u32,
    pub bias: u32,
}

// How many records from pc on begin below an address at least, whatever their lengths.
fn records_below(upper: u32, pc: u32) -> u32
    requires { pc < upper }
    ensures { result ≡ records_below upper pc }
{
    (upper - pc - 1) / 4 + 1
}

// Of so many records from pc on, how many protection lets be fetched, where it lets the first.
fn fetchable(core: &[u32; CORE], ranges: &[Range; 32], pc: u32, records: u32) -> u32
    requires { (check_of core.now ranges.now Right.Execute (as_address pc) ≡ Ok tt) × (0 < records) }
    ensures { result ≡ fetchable_of core.now ranges.now pc records }
{
    if !fields::syscon::protection(core[SYSCON]) {
        return records;
    }
    match search(
        ranges,
        fields::psw::protection_set(core[PSW]),
        Right::Execute,
        as_address(pc),
    ) {
        None => 1,
        Some(k) => {
            let below = records_below(ranges[k].upper, pc);
            below.min(records)
        }
    }
}

// The records from pc on, by what is known of the image.
fn rest_guided(image: &[u8], guide: Guide, marks: &[u64], pc: u32) -> InBody
    requires { ImageHolds image.now × Guides image.now guide marks.now }
    ensures { result ≡ found_of image.now guide.long pc }
{
    if guide.long {
        return InBody {
            rest: rest_long(image, pc),
            entry: 0,
        };
    }
    rest_at(image, marks, guide.shift, pc)
}

// The first n of the records from pc on.
fn span_of(image: &[u8], long: bool, found: InBody, pc: u32, n: u32) -> Span
    requires { ImageHolds image.now × (found ≡ found_of image.now long pc) × (0 < found.rest.records) × (n ≤ found.rest.records) }
    ensures { result ≡ span_of image.now long pc n }
{
    let rest = found.rest;
    if long {
        return Span {
            from: pc,
            records: n,
            at: rest.at,
            end: rest.at + 8 * n as usize,
            long: n,
            entry: 0,
            first: 0,
            bias: 0,
        };
    }
    let e = read_entry(image, found.entry as usize);
    Span {
        from: pc,
        records: n,
        at: rest.at,
        end: rest.at + 8 * n as usize,
        long: 0,
        entry: found.entry + 1,
        first: e.records - rest.records,
        bias: bias_of(e),
    }
}

// What lies at PC: records, or the fetch's trap.
pub fn look_ahead(
    image: &[u8],
    guide: Guide,
    marks: &[u64],
    core: &[u32; CORE],
    ranges: &[Range; 32],
) -> Result<Span, Trap>
    requires { ImageHolds image.now × Guides image.now guide marks.now }
    ensures { LiesAhead image.now guide.long core.now ranges.now result }
{
    let pc = core[PC];
    check_access(core, ranges, Right::Execute, as_address(pc))?;
    let found = rest_guided(image, guide, marks, pc);
    let rest = found.rest;
    if rest.records == 0 {
        return Err(CODE);
    }
    let n = fetchable(core, ranges, pc, rest.records);
    Ok(span_of(image, guide.long, found, pc, n))
}
