// The interrupt sources (002, chapter 5): which one is taken first, and when.

#![tactic(auto)]

ghost use Rattle.std.specs.Prelude.{◌≡◌};
ghost use Rattle.words.specs.Exactly.{Exactly};
ghost use Rattle.interrupts.specs.Sources.{better_of, best_of, takes, cleared_at, Highest};

// The enabled requesting source of the highest priority number, with that number; 16 and 0 for none.
// No `Option`: the run asks `taken` before each step, and level 0 never stands above CCPN, so that it needs no test for none.
#[derive(Clone, Copy)]
pub struct Best {
    pub source: u8,
    pub level: u8,
}

// The better of the best so far and source i: a tie goes to the higher source number.
#[tactic(auto, unfolding(crate::specs::Sources::better_of))]
fn better(b: Best, i: u8, src: u32) -> Best
    ensures { result ≡ better_of b i src }
{
    let level = fields::request::priority(src);
    if fields::request::pending(src) && b.level <= level {
        Best { source: i, level }
    } else {
        b
    }
}

// The best of the sixteen sources.
pub fn best_source(sources: &[u32; 16]) -> Best
    ensures { (result ≡ best_of sources.now) × Exactly (Highest 16 sources.now) result }
{
    let mut b = Best {
        source: 16,
        level: 0,
    };
    for i in 0..16 {
        b = better(b, i, sources[i as usize]);
    }
    b
}

// Whether a source with that priority number is taken: IE is 1, and it stands above CCPN.
#[tactic(auto, unfolding(crate::specs::Sources::takes))]
pub fn taken(icr: u32, level: u8) -> bool
    ensures { result ≡ takes icr level }
{
    fields::icr::enabled(icr) && fields::icr::priority(icr) < level as u32
}

// Clears the request of one source.
#[tactic(auto, unfolding(crate::specs::Sources::cleared_at))]
pub fn clear(sources: &mut [u32; 16], source: u8)
    ensures { sources.new ≡ cleared_at sources.old source }
{
    let i = source as usize;
    if i < 16 {
        sources[i] = fields::request::cleared(sources[i]);
    }
}
