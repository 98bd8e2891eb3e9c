// The table of contents: a count, then entries of three words.

ghost use Rattle.std.specs.Prelude.{◌≡◌, ◌+◌, ◌*◌, ◌<◌, ◌≤◌, length, nat_le};
ghost use Rattle.image.specs.Table.{entry_at, entry_fits, range_end, entries_from, table_of};
ghost use Rattle.image.specs.Rules.{TableSays};
ghost use Rattle.words.specs.Exactly.{Exactly};

use crate::lengths::address_after;
use memory::word_at;

#[derive(Clone, Copy)]
pub struct Entry {
    pub load: u32,
    pub records: u32,
    pub offset: u32,
}

// Why an image is refused: rule 2 with the entry at fault (they count from 1; 0 is the count, or a table cut short), rule 3 with the index of the record at fault over all bodies.
#[derive(Clone, Copy)]
pub enum ImageFault {
    Table(u32),
    Record(u32),
}

// The entry at place i, from 0.
pub fn read_entry(image: &[u8], i: usize) -> Entry
    requires { 16 + 12 * i ≤ length image.now }
    ensures { result ≡ entry_at image.now i }
{
    let at = 4 + 12 * i;
    Entry {
        load: word_at(image, at),
        records: word_at(image, at + 4),
        offset: word_at(image, at + 8),
    }
}

// Whether an entry's words hold: its body begins at `start`, in an image of that length.
#[tactic(auto, unfolding(crate::specs::Table::entry_fits))]
fn entry_fits(e: Entry, start: u64, len: u64) -> bool
    ensures { result ≡ entry_fits e start len }
{
    e.load % 4 == 0
        && (1..=0x1_0000).contains(&e.records)
        && e.offset as u64 == start
        && e.offset as u64 + 8 * e.records as u64 <= len
}

// Whether the code range of an entry ends at an address or below it. It ends at the latest where it would if all records were long, and nearly always that tells.
fn ends_by(image: &[u8], e: Entry, limit: u64) -> bool
    requires { (e.offset + 8 * e.records ≤ length image.now) × (e.records ≤ 0x1_0000) }
    ensures { result ≡ nat_le (range_end image.now e) limit }
{
    e.load as u64 + 4 * e.records as u64 <= limit
        || address_after(image, e.offset as usize, e.load as u64, e.records) <= limit
}

// The table of contents.
pub fn check_table(image: &[u8]) -> Result<(), ImageFault>
    ensures { (result ≡ table_of image.now) × Exactly (TableSays image.now) result }
{
    let len = image.len();
    if len < 4 {
        return Err(ImageFault::Table(0));
    }
    let n = word_at(image, 0);
    if n < 1 || 16 < n || len < 4 + 12 * n as usize {
        return Err(ImageFault::Table(0));
    }
    check_entries(image, n)
}

// The n entries, in order, and that the last body ends the image. Before the first one no code range ends anywhere.
fn check_entries(image: &[u8], n: u32) -> Result<(), ImageFault>
    requires { (n ≤ 16) × (4 + 12 * n ≤ length image.now) }
    ensures { result ≡ entries_from n image.now 0 (4 + 12 * n) 0 }
{
    let len = image.len() as u64;
    let mut start: u64 = 4 + 12 * n as u64;
    let mut last = Entry {
        load: 0,
        records: 0,
        offset: 0,
    };
    for i in 0..n {
        let e = read_entry(image, i as usize);
        if !entry_fits(e, start, len) {
            return Err(ImageFault::Table(i + 1));
        }
        if !ends_by(image, last, e.load as u64) {
            return Err(ImageFault::Table(i + 1));
        }
        if !ends_by(image, e, 0xE000_0000) {
            return Err(ImageFault::Table(i + 1));
        }
        start += 8 * e.records as u64;
        last = e;
    }
    if start == len {
        return Ok(());
    }
    Err(ImageFault::Table(n))
}
