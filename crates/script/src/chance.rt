// Choices made from a number.
ghost use Rattle.std.specs.Prelude.{◌≡◌, ◌≤◌, max};
ghost use Rattle.script.specs.Chance.{stirred, drawn_from, between, odd};
ghost use Rattle.script.specs.Choices.{drawn_for};

// The kinds of choices, each with its number.
#[derive(Clone, Copy)]
pub enum Choice {
    // A register's bit at the start.
    Start = 0,
    // A gate's two delays at a moment.
    Delay = 1,
    // What a register shows at a moment.
    Show = 2,
    // When the clock of a cycle comes to a register.
    Clock = 3,
    // What a register takes in a cycle.
    Take = 4,
}

impl Choice {
    // The number that belongs to a seed, this kind of choice, and two numbers.
    pub fn draw(self, seed: u64, a: u64, b: u64) -> u64
        ensures { result ≡ drawn_for seed self a b }
    {
        draw(seed, self as u64, a, b)
    }
}

fn stir(x: u64) -> u64
    ensures { result ≡ stirred x }
{
    let x = (x ^ (x >> 30)).wrapping_mul(0xbf58_476d_1ce4_e5b9);
    let x = (x ^ (x >> 27)).wrapping_mul(0x94d0_49bb_1331_11eb);
    x ^ (x >> 31)
}

// The number that belongs to a seed, a kind of choice, and two numbers. It stands beside `Choice::draw` as its promise is
// for every number of a kind.
pub fn draw(seed: u64, kind: u64, a: u64, b: u64) -> u64
    ensures { result ≡ drawn_from seed kind a b }
{
    let seed = seed.wrapping_mul(0x9e37_79b9_7f4a_7c15);
    let kind = kind.wrapping_mul(0xc2b2_ae3d_27d4_eb4f);
    let a = a.wrapping_mul(0xd6e8_feb8_6659_fd93);
    let b = b.wrapping_mul(0xa076_1d64_78bd_642f);
    stir(seed ^ kind ^ a ^ b)
}

// A number from `low` to `high` by the lower 32 bits of another; `low` where `high` is below it.
pub fn between(h: u64, low: u64, high: u64) -> u64
    ensures value { result ≡ between h low high }
    ensures low { low ≤ result }
    ensures high { result ≤ max low high }
{
    let most = high.saturating_sub(low).min(0xffff_ffff);
    low + (((h & 0xffff_ffff) * (most + 1)) >> 32)
}

// Whether a number is odd: a bit by chance.
pub fn odd(h: u64) -> bool
    ensures { result ≡ odd h }
{
    h & 1 == 1
}
