// When the clock comes to a register by a script, what the register holds at the start, and what it takes, cycle by cycle.
#![tactic(auto)]

ghost use Rattle.std.specs.Prelude.{◌≡◌, ℕ, List};
ghost use Rattle.script.specs.Told.{start_told, take_told};

mod bench;
mod ticks;

pub use bench::Bench;
use script::{Choice, Kind, Script, chance};
pub use ticks::Ticks;

// The bit of register `r` at the start: as told, else by the seed, else 0.
// No method of `Bench`, as `take_of` is none: neither needs a circuit, and what they promise is so for every circuit.
pub fn start_of(script: &Script, r: usize) -> bool
    ensures { (g rs ts : List ℕ) → result ≡ start_told script.now g rs ts r }
{
    match (&script.start, script.seed) {
        (Some(bits), _) => bits.get(r).copied().unwrap_or(false),
        (None, Some(seed)) => chance::odd(Choice::Start.draw(seed, r as u64, 0)),
        (None, None) => false,
    }
}

// What register `r` takes at its clock of cycle `n` where it may take anything: as told, else by the seed, else 0.
pub fn take_of(script: &Script, n: u64, r: usize) -> bool
    ensures { (g rs ts : List ℕ) → result ≡ take_told script.now g rs ts n r }
{
    match (script.said_in(Kind::Take, n, r), script.seed) {
        (Some(e), _) => e.bit(),
        (None, Some(seed)) => chance::odd(Choice::Take.draw(seed, n, r as u64)),
        (None, None) => false,
    }
}
