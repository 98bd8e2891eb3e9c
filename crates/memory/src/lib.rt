// Addresses, and words in lent memory, little-endian.

#![tactic(auto)]

pub mod address;
pub mod width;

ghost use Rattle.std.specs.Prelude.{◌≡◌, ◌+◌, ◌*◌, ◌≤◌, ◌<◌, length};
ghost use Rattle.std.proofs.lemmas.List.Edits.{sets};
ghost use Rattle.memory.specs.Word.{word_at, words_at, put_word, put_words};

// The word at byte i.
#[tactic(auto, unfolding(crate::specs::Word::word_at))]
pub fn word_at(s: &[u8], i: usize) -> u32
    requires { i + 4 ≤ length s.now }
    ensures { result ≡ word_at s.now i }
{
    wide(s[i]) + 0x100 * wide(s[i + 1]) + 0x1_0000 * wide(s[i + 2]) + 0x100_0000 * wide(s[i + 3])
}

fn wide(b: u8) -> u32
    ensures { (result ≡ b) × (result < 256) }
{
    b as u32
}

// Writes the word w at byte i.
#[tactic(auto, unfolding(crate::specs::Word::put_word))]
pub fn put_word(s: &mut [u8], i: usize, w: u32)
    requires { i + 4 ≤ length s.old }
    ensures { s.new ≡ put_word s.old i w }
{
    s[i] = (w % 0x100) as u8;
    s[i + 1] = (w / 0x100 % 0x100) as u8;
    s[i + 2] = (w / 0x1_0000 % 0x100) as u8;
    s[i + 3] = (w / 0x100_0000) as u8;
}

// Reads n words upward from byte i, into `words` from the element `first` on.
pub fn read_words(s: &[u8], i: usize, words: &mut [u32], first: usize, n: usize)
    requires { (i + 4 * n ≤ length s.now) × (first + n ≤ length words.old) }
    ensures { words.new ≡ sets words.old first (words_at s.now i n) }
{
    for k in 0..n {
        words[first + k] = word_at(s, i + 4 * k);
    }
}

// Writes the first n of the words upward from byte i.
pub fn put_words(s: &mut [u8], i: usize, words: &[u32], n: usize)
    requires { (i + 4 * n ≤ length s.old) × (n ≤ length words.now) }
    ensures { s.new ≡ put_words s.old i words.now n }
{
    for k in 0..n {
        put_word(s, i + 4 * k, words[k]);
    }
}
