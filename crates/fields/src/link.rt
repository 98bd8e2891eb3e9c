// A link: the field of FCX, LCX, PCXI and of an area's first word that names an area (002, 3.4, Figure 15).

ghost use Rattle.std.specs.Prelude.{◌≡◌};
ghost use Rattle.fields.specs.Link.{link_of};

// It counts areas of 64 bytes, not bytes.
#[derive(Clone, Copy)]
pub struct Link(pub u32);

// The link in a word, bits 19:0: the one place where a word becomes a link.
pub fn link_of(word: u32) -> Link
    ensures { result ≡ link_of word }
{
    Link(word % 0x10_0000)
}
