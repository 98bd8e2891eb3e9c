// The counts of leading bits (002, 8.1.1.9).

ghost use Rattle.std.specs.Prelude.{◌≡◌};
ghost use Rattle.bitwise.specs.Leading.{clz_of, clo_of, cls_of};

pub fn clz(a: u32) -> u32
    ensures { result ≡ clz_of a }
{
    u32::leading_zeros(a)
}

pub fn clo(a: u32) -> u32
    ensures { result ≡ clo_of a }
{
    u32::leading_zeros(!a)
}

pub fn cls(a: u32) -> u32
    ensures { result ≡ cls_of a }
{
    if a < 0x8000_0000 {
        u32::leading_zeros(a) - 1
    } else {
        u32::leading_zeros(!a) - 1
    }
}
