// Call depth counting: PSW.CDE and PSW.CDC (002, 7.1.1.5, 7.1.1.6 and 8.9.5).

ghost use Rattle.std.specs.Prelude.{◌≡◌, ◌+◌, ◌<◌, ◌^◌, is_some, IfSome};
ghost use Rattle.fields.specs.Depth.{psw_cdc, counter_bits, counter_of, counts, overflows_up, underflows_down, nested, called_of};

// The counter and its value above all ones.
#[derive(Clone, Copy)]
struct Counter {
    count: u32,
    above: u32,
}

// The counter in CDC: below a mask of leading ones and a 0, which is the highest 1 of the complement.
fn counter_of(cdc: u32) -> Counter
    requires { cdc < 0x7F }
    ensures { (result.count ≡ counter_of cdc) × (result.above ≡ 2 ^ counter_bits 7 cdc) × (result.count < 0x7F) }
{
    let above = 1 << (0x7F - cdc).ilog2();
    Counter {
        count: cdc % above,
        above,
    }
}

// CDE is 1, and CDC is below seven ones.
#[tactic(auto, unfolding(crate::specs::Depth::counts, crate::specs::Field::is_set, words::specs::Bits::bit))]
pub fn counting(psw: u32) -> bool
    ensures { result ≡ counts psw }
{
    psw / 0x80 % 2 == 1 && psw % 0x80 < 0x7F
}

// The counter, if it counts.
#[tactic(auto, unfolding(crate::specs::Depth::counts))]
fn counter_in(psw: u32) -> Option<Counter>
    ensures variant { is_some result ≡ counts psw }
    ensures counter { IfSome result (λ c. (c.count ≡ counter_of (psw_cdc psw)) × (c.above ≡ 2 ^ counter_bits 7 (psw_cdc psw)) × (c.count < 0x7F)) }
{
    counting(psw).then(|| counter_of(psw % 0x80))
}

// A call would overflow the counter.
#[tactic(auto, unfolding(crate::specs::Depth::overflows_up))]
pub fn overflows(psw: u32) -> bool
    ensures { result ≡ overflows_up psw }
{
    counter_in(psw).is_some_and(|c| c.count + 1 == c.above)
}

// A return would underflow the counter.
#[tactic(auto, unfolding(crate::specs::Depth::underflows_down))]
pub fn underflows(psw: u32) -> bool
    ensures { result ≡ underflows_down psw }
{
    counter_in(psw).is_some_and(|c| c.count == 0)
}

// The count is above 0.
#[tactic(auto, unfolding(crate::specs::Depth::nested))]
pub fn in_call(psw: u32) -> bool
    ensures { result ≡ nested psw }
{
    counter_in(psw).is_some_and(|c| 0 < c.count)
}

// PSW after a call: CDC goes up if it counts, CDE becomes 1.
#[tactic(auto, unfolding(crate::specs::Depth::called_of))]
pub fn called(psw: u32) -> u32
    ensures { result ≡ called_of psw }
{
    psw / 0x100 * 0x100 + 0x80 + (psw % 0x80 + counting(psw) as u32)
}
