// The record of a span that a step leads to.

ghost use Rattle.std.specs.Prelude.{◌≡◌, ◌<◌, false};
ghost use Rattle.image.specs.Marks.{MarksHold};
ghost use Rattle.spans.specs.Spans.{begin, IsSpan, index_on, IndexTells, marked_index, EndsAt, place_after};

use crate::Span;
use image::lengths::length_of;
use image::marks::{Guide, mark_address, mark_entry, mark_index, slot_of};

// The index of the record that begins at pc, walked to from the one with index k, which begins at `here`: past the span where there is none.
fn index_on(image: &[u8], long: bool, s: Span, k: u32, here: u32, pc: u32) -> u32
    requires { IsSpan image.now long s × (k < s.records) × (here ≡ begin image.now s k) }
    ensures { (result ≡ index_on image.now s k pc) × IndexTells image.now s k pc result }
{
    let at = s.at;
    let mut a = here;
    for j in k..s.records {
        if pc <= a {
            return if a == pc { j } else { s.records };
        }
        a += length_of(image[at + 8 * j as usize]);
    }
    s.records
}

// The index of the record that begins at pc, by the mark for it: past the span where no mark tells.
fn index_marked(image: &[u8], guide: Guide, marks: &[u64], s: Span, pc: u32) -> u32
    requires { IsSpan image.now guide.long s × (guide.long ≡ false) × MarksHold image.now marks.now }
    ensures { result ≡ marked_index image.now guide.shift marks.now s pc }
{
    let slot = slot_of(s.bias, s.entry, guide.shift, pc);
    if marks.len() <= slot {
        return s.records;
    }
    let m = marks[slot];
    if mark_entry(m) != s.entry {
        return s.records;
    }
    let k = std::num::wrapping_sub_u32(mark_index(m), s.first);
    if s.records <= k {
        return s.records;
    }
    index_on(image, guide.long, s, k, mark_address(m), pc)
}

// The byte at which the record stands that begins at pc, after the one at byte `at`, which ends at `next`. Past the span where none begins there, where no mark tells, and where all are long: these are found by their index.
pub fn place_at(
    image: &[u8],
    guide: Guide,
    marks: &[u64],
    s: Span,
    at: usize,
    next: u32,
    pc: u32,
) -> usize
    requires { IsSpan image.now guide.long s × (guide.long ≡ false → EndsAt image.now s at next) × MarksHold image.now marks.now }
    ensures { result ≡ place_after image.now guide marks.now s at next pc }
{
    if guide.long {
        return s.end;
    }
    if pc == next {
        return at + 8;
    }
    s.at + 8 * index_marked(image, guide, marks, s, pc) as usize
}
