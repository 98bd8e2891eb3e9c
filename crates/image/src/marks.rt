// What a run looks up beforehand, so that a fetch need not walk a whole body: whether the image has no short form, and marks of records with their addresses. A mark that is missing costs a walk and nothing else: no answer of a step or a run depends on one.

ghost use Rattle.std.specs.Prelude.{◌≡◌, ◌+◌, ◌<◌, length};
ghost use Rattle.image.specs.Table.{entries_of, entry_at};
ghost use Rattle.image.specs.Records.{ImageHolds};
ghost use Rattle.image.specs.Rest.{Begins};
ghost use Rattle.image.specs.Marks.{mark_entry, mark_index, mark_address, slot_of, bias_of, shift_of, mark_of, put_mark, body_marks, image_marks, Marked};

use crate::lengths::length_of;
use crate::table::{Entry, read_entry};
use memory::word_at;

// Whether an image has no short form; and the logarithm of how many addresses share a mark.
#[derive(Clone, Copy)]
pub struct Guide {
    pub long: bool,
    pub shift: u32,
}

// The mark of the record with index k of the body of entry i, both from 0, that begins at an address.
fn mark(i: u32, k: u32, address: u32) -> u64
    requires { (i < 16) × (k < 0x1_0000) }
    ensures { (mark_entry result ≡ i + 1) × (mark_index result ≡ k) × (mark_address result ≡ address) × (result ≡ mark_of i k address) }
{
    address as u64 * 0x1_0000_0000 + (i + 1) as u64 * 0x1_0000 + k as u64
}

// The entry that a mark names, from 1; 0 where it names none.
pub fn mark_entry(m: u64) -> u32
    ensures { result ≡ mark_entry m }
{
    (m % 0x1_0000_0000 / 0x1_0000) as u32
}

pub fn mark_index(m: u64) -> u32
    ensures { result ≡ mark_index m }
{
    (m % 0x1_0000) as u32
}

pub fn mark_address(m: u64) -> u32
    ensures { result ≡ mark_address m }
{
    (m / 0x1_0000_0000) as u32
}

// What is added to an address of the body for its place among the marks: a record has 8 bytes in the image, and up to 4 addresses.
pub fn bias_of(e: Entry) -> u32
    ensures { result ≡ bias_of e }
{
    (e.offset / 2).wrapping_sub(e.load)
}

// Where the mark for pc stands, of the body of an entry, from 1.
pub fn slot_of(bias: u32, entry: u32, shift: u32, pc: u32) -> usize
    ensures { result ≡ slot_of bias entry shift pc }
{
    (pc.wrapping_add(bias) >> (shift % 32)) as usize + entry as usize
}

// The least shift with which marks for so many bytes of an image stand in 4,096 places.
fn shift_for(bytes: usize) -> u32
    ensures { result ≡ shift_of bytes }
{
    (1..31)
        .find(|&shift| (bytes / 2) >> shift < 4080)
        .unwrap_or(31)
}

// Of the records with one place the first is marked.
fn put_mark(image: &[u8], marks: &mut [u64; 4096], slot: usize, i: u32, k: u32, address: u32)
    requires { ImageHolds image.now × Begins image.now address i k × Marked image.now marks.old }
    ensures marked { Marked image.now marks.new }
    ensures written { marks.new ≡ put_mark marks.old slot i k address }
{
    if slot < 4096 && mark_entry(marks[slot]) != i + 1 {
        marks[slot] = mark(i, k, address);
    }
}

// Marks of the body of entry i.
fn mark_body(image: &[u8], marks: &mut [u64; 4096], shift: u32, i: u32)
    requires { ImageHolds image.now × (i < entries_of image.now) × Marked image.now marks.old }
    ensures marked { Marked image.now marks.new }
    ensures written { marks.new ≡ body_marks (entry_at image.now i).records image.now shift i marks.old }
{
    let e = read_entry(image, i as usize);
    let at = e.offset as usize;
    let bias = bias_of(e);
    let mut here = e.load;
    for k in 0..e.records {
        put_mark(image, marks, slot_of(bias, i + 1, shift, here), i, k, here);
        here += length_of(image[at + 8 * k as usize]);
    }
}

// Marks of an image, in an array that has none; the shift that they stand by.
pub fn mark_image(image: &[u8], marks: &mut [u64; 4096]) -> u32
    requires { ImageHolds image.now × Marked image.now marks.old }
    ensures marked { Marked image.now marks.new }
    ensures whole { (result ≡ shift_of (length image.now)) × (marks.new ≡ image_marks (entries_of image.now) image.now result marks.old) }
{
    let n = word_at(image, 0);
    let shift = shift_for(image.len());
    for i in 0..n {
        mark_body(image, marks, shift, i);
    }
    shift
}
