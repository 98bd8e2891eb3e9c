// The record that begins at a PC, decoded, and those that follow it in its body.

ghost use Rattle.std.specs.Prelude.{◌≡◌, ℕ, ◌+◌, ◌*◌, ◌<◌, ◌≤◌, true, length};
ghost use Rattle.operations.specs.Operations.{access_of};
ghost use Rattle.image.specs.Lengths.{address_after};
ghost use Rattle.image.specs.Table.{entries_of, entry_at};
ghost use Rattle.image.specs.Records.{ImageHolds};
ghost use Rattle.image.specs.Rest.{index_of, IndexSays, Begins, body_walk, rest_in, rest_of, entry_of};
ghost use Rattle.image.specs.Marks.{long_only, marked_start, MarksHold};
ghost use Rattle.image.specs.Fetch.{next_after, instruction_at, fetch_of, Bounded, FetchSays};

use crate::lengths::length_of;
use crate::marks::{bias_of, mark_address, mark_entry, mark_index, slot_of};
use crate::table::{Entry, read_entry};
use memory::word_at;
use operations::{Access, Operation, access_of, decode, operation_number};

// An instruction with its fields, and the address after it.
#[derive(Clone, Copy)]
pub struct Instruction {
    pub op: Operation,
    pub c: usize,
    pub a: usize,
    pub b: usize,
    pub imm: u32,
    pub next: u32,
}

// The records of a body from one on: how many they are, and the byte of the image at which the first one stands.
#[derive(Clone, Copy)]
pub struct Rest {
    pub records: u32,
    pub at: usize,
}

// Where no record begins at an address. No `Option`: whoever asks compares the count next, and none is then no case of its own.
const NO_RECORD: Rest = Rest { records: 0, at: 0 };

// The same with the place of the body's entry in the table.
#[derive(Clone, Copy)]
pub struct InBody {
    pub rest: Rest,
    pub entry: u32,
}

// The record at byte `at` of the image, after which the address `next` comes. That address is found before, so that the compiled decoding has no sum in it.
pub fn read_record(image: &[u8], at: usize, next: u32) -> Instruction
    requires { at + 8 ≤ length image.now }
    ensures { (pc : ℕ) → next ≡ next_after image.now at pc → result ≡ instruction_at image.now at pc }
{
    Instruction {
        op: decode(image[at]),
        c: image[at + 1] as usize,
        a: image[at + 2] as usize,
        b: image[at + 3] as usize,
        imm: word_at(image, at + 4),
        next,
    }
}

// Of an instruction what says which data it accesses.
#[derive(Clone, Copy)]
pub struct Operand {
    pub access: Option<Access>,
    pub a: usize,
    pub imm: u32,
}

// That of the record at byte `at` of the image.
pub fn read_operand(image: &[u8], at: usize) -> Operand
    requires { at + 8 ≤ length image.now }
    ensures { (pc : ℕ) → (result.access ≡ access_of (instruction_at image.now at pc).op) × (result.a ≡ (instruction_at image.now at pc).a) × (result.imm ≡ (instruction_at image.now at pc).imm) }
{
    Operand {
        access: access_of(operation_number(image[at])),
        a: image[at + 2] as usize,
        imm: word_at(image, at + 4),
    }
}

// The address after the record at byte `at` of the image, which begins at pc.
pub fn next_after(image: &[u8], at: usize, pc: u32) -> u32
    requires { at < length image.now }
    ensures { result ≡ next_after image.now at pc }
{
    pc.wrapping_add(length_of(image[at]))
}

// How many records of 4 addresses pc stands after the one at `from`. Where pc lies below it, or within a record, the answer is past every body: the distance wraps, and its two low bits count highest.
pub fn index_from(from: u32, pc: u32) -> u32
    ensures { (result ≡ index_of from pc) × IndexSays from pc result }
{
    let far = pc.wrapping_sub(from);
    far / 4 + far % 4 * 0x4000_0000
}

// Of n records, of which the first stands at byte `at` and begins at `from`: those from the one that begins at pc on.
fn walk_body(image: &[u8], at: usize, from: u32, n: u32, pc: u32) -> Rest
    requires { (at + 8 * n ≤ length image.now) × (n ≤ 0x1_0000) × (address_after n image.now at from ≤ 0xE000_0000) }
    ensures { result ≡ body_walk n image.now at from pc }
{
    let mut here = from;
    for k in 0..n {
        let byte = at + 8 * k as usize;
        if pc < here {
            return NO_RECORD;
        }
        if pc == here {
            return Rest {
                records: n - k,
                at: byte,
            };
        }
        here += length_of(image[byte]);
    }
    NO_RECORD
}

// The records of a body from pc on, in an image without short forms that rules 2 and 3 accept.
pub fn rest_long(image: &[u8], pc: u32) -> Rest
    requires { ImageHolds image.now × (long_only image.now ≡ true) }
    ensures { result ≡ rest_of image.now pc }
{
    for i in 0..word_at(image, 0) {
        let e = read_entry(image, i as usize);
        let k = index_from(e.load, pc);
        if k < e.records {
            return Rest {
                records: e.records - k,
                at: e.offset as usize + 8 * k as usize,
            };
        }
    }
    NO_RECORD
}

// A record of a body to walk from: its index, and the address at which it begins.
#[derive(Clone, Copy)]
pub struct Start {
    pub index: u32,
    pub address: u32,
}

// Where a walk to pc may start: at a mark that is not past it, or at the body's first record.
fn start_of(image: &[u8], marks: &[u64], shift: u32, i: u32, e: Entry, pc: u32) -> Start
    requires { ImageHolds image.now × MarksHold image.now marks.now × (i < entries_of image.now) × (e ≡ entry_at image.now i) × (e.load ≤ pc) }
    ensures { (result ≡ marked_start marks.now shift i e pc) × (Begins image.now result.address i result.index) × (result.address ≤ pc) }
{
    let slot = slot_of(bias_of(e), i + 1, shift, pc);
    if slot < marks.len() {
        let m = marks[slot];
        if mark_entry(m) == i + 1 && mark_address(m) <= pc {
            return Start {
                index: mark_index(m),
                address: mark_address(m),
            };
        }
    }
    Start {
        index: 0,
        address: e.load,
    }
}

// The records from pc on of the body of entry i. No record of it begins past the end that it had if all were long.
fn rest_in(image: &[u8], marks: &[u64], shift: u32, i: u32, pc: u32) -> Rest
    requires { ImageHolds image.now × MarksHold image.now marks.now × (i < entries_of image.now) }
    ensures { result ≡ rest_in image.now (entry_at image.now i) pc }
{
    let e = read_entry(image, i as usize);
    if 4 * e.records <= pc.wrapping_sub(e.load) {
        return NO_RECORD;
    }
    let s = start_of(image, marks, shift, i, e, pc);
    walk_body(
        image,
        e.offset as usize + 8 * s.index as usize,
        s.address,
        e.records - s.index,
        pc,
    )
}

// The records of a body from pc on, of any image that rules 2 and 3 accept.
pub fn rest_at(image: &[u8], marks: &[u64], shift: u32, pc: u32) -> InBody
    requires { ImageHolds image.now × MarksHold image.now marks.now }
    ensures { (result.rest ≡ rest_of image.now pc) × (result.entry ≡ entry_of image.now pc) }
{
    // As a `for` over the entries it makes the run's compiled loop 3 or 4 instructions longer for each step.
    let mut i: u32 = 0;
    loop {
        let r = rest_in(image, marks, shift, i, pc);
        if r.records != 0 {
            return InBody { rest: r, entry: i };
        }
        i += 1;
        if i == word_at(image, 0) {
            return InBody {
                rest: NO_RECORD,
                entry: 0,
            };
        }
    }
}

// The record that begins at pc, of an image that rules 2 and 3 accept.
pub fn fetch(image: &[u8], pc: u32) -> Option<Instruction>
    requires { ImageHolds image.now }
    ensures { (result ≡ fetch_of image.now pc) × Bounded result × FetchSays image.now pc result }
{
    let Rest { records, at } = rest_at(image, &[], 0, pc).rest;
    if records == 0 {
        return None;
    }
    Some(read_record(image, at, next_after(image, at, pc)))
}
