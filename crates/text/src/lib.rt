// Numbers as text, in ASCII.

#![tactic(auto)]

ghost use Rattle.std.specs.Prelude.{◌≡◌};
ghost use Rattle.text.specs.Hex.{glyph_of, hex_of};

// The eight hexadecimal digits of a word, highest first, in upper case.
pub fn hex(w: u32) -> [u8; 8]
    ensures { result ≡ hex_of w }
{
    [
        glyph(w / 0x1000_0000),
        glyph(w / 0x100_0000),
        glyph(w / 0x10_0000),
        glyph(w / 0x1_0000),
        glyph(w / 0x1000),
        glyph(w / 0x100),
        glyph(w / 0x10),
        glyph(w),
    ]
}

// The lowest hexadecimal digit of n.
pub fn glyph(n: u32) -> u8
    ensures { result ≡ glyph_of n }
{
    let d = (n % 16) as u8;
    if d < 10 { b'0' + d } else { b'A' + (d - 10) }
}
