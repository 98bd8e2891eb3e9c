// The widths of data: a byte, a halfword and a word.

ghost use Rattle.std.specs.Prelude.{◌≡◌, ◌+◌, ◌≤◌, ◌<◌, ℕ, List, length, get_or};
ghost use Rattle.memory.specs.Word.{half_at, word_at, put_byte, put_half, put_word};
ghost use Rattle.memory.specs.Width.{Joins};
ghost use Rattle.memory.specs.Joins.{bytes_join, halves_join, words_join};

use crate::{put_word, wide, word_at};

// Data of SIZE bytes, which is read as a word and written from one.
pub trait Width {
    ghost SIZE: { ℕ };

    // What is read is less.
    ghost limit: { ℕ };

    ghost read: { List ℕ → ℕ → ℕ };

    ghost put: { List ℕ → ℕ → ℕ → List ℕ };

    const SIZE: u8;

    // The data at byte i.
    fn read(s: &[u8], i: usize) -> u32
        requires { i + SIZE ≤ length s.now }
        ensures { (result ≡ read s.now i) × (result < limit) };

    // Writes the low bytes of w at byte i.
    fn put(s: &mut [u8], i: usize, w: u32)
        requires { i + SIZE ≤ length s.old }
        ensures { s.new ≡ put s.old i w };

    // Data in one of two windows is that data of both.
    ghost joins: { Joins SIZE read put };
}

// A byte.
impl Width for u8 {
    ghost SIZE = { 1 };

    ghost limit = { 0x100 };

    ghost read = { λ s i. get_or s i 0 };

    ghost put = { put_byte };

    ghost joins = { bytes_join };

    const SIZE: u8 = 1;

    fn read(s: &[u8], i: usize) -> u32 {
        s[i] as u32
    }

    #[tactic(auto, unfolding(crate::specs::Word::put_byte))]
    fn put(s: &mut [u8], i: usize, w: u32) {
        s[i] = (w % 0x100) as u8;
    }
}

// A halfword.
impl Width for u16 {
    ghost SIZE = { 2 };

    ghost limit = { 0x1_0000 };

    ghost read = { half_at };

    ghost put = { put_half };

    ghost joins = { halves_join };

    const SIZE: u8 = 2;

    #[tactic(auto, unfolding(crate::specs::Word::half_at))]
    fn read(s: &[u8], i: usize) -> u32 {
        wide(s[i]) + 0x100 * wide(s[i + 1])
    }

    #[tactic(auto, unfolding(crate::specs::Word::put_half))]
    fn put(s: &mut [u8], i: usize, w: u32) {
        s[i] = (w % 0x100) as u8;
        s[i + 1] = (w / 0x100 % 0x100) as u8;
    }
}

// A word.
impl Width for u32 {
    ghost SIZE = { 4 };

    ghost limit = { 0x1_0000_0000 };

    ghost read = { word_at };

    ghost put = { put_word };

    ghost joins = { words_join };

    const SIZE: u8 = 4;

    fn read(s: &[u8], i: usize) -> u32 {
        word_at(s, i)
    }

    fn put(s: &mut [u8], i: usize, w: u32) {
        put_word(s, i, w);
    }
}
