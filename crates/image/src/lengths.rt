// The lengths of records: 4 addresses, and 2 of a short form, whose operation byte has 128 added.

ghost use Rattle.std.specs.Prelude.{◌≡◌, ◌+◌, ◌*◌, ◌^◌, ◌≤◌, length};
ghost use Rattle.image.specs.Lengths.{length_of, address_after};

// How many addresses a record with that operation byte covers.
pub fn length_of(byte: u8) -> u32
    ensures { result ≡ length_of byte }
{
    4 - 2 * (byte / 128) as u32
}

// The address after n records, of which the first stands at byte `at` and begins at `from`.
pub fn address_after(image: &[u8], at: usize, from: u64, n: u32) -> u64
    requires { (at + 8 * n ≤ length image.now) × (n ≤ 0x1_0000) × (from ≤ 2 ^ 32) }
    ensures { result ≡ address_after n image.now at from }
{
    let mut here = from;
    for k in 0..n {
        here += length_of(image[at + 8 * k as usize]) as u64;
    }
    here
}
