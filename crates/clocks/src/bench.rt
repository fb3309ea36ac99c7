// A circuit on the bench, and the clocks that come to its registers.
ghost use Rattle.std.specs.Prelude.{◌≡◌, ℕ, suc, ◌+◌, ◌*◌, ◌^◌, ◌≤◌, max, List};
ghost use Rattle.circuit.specs.Lent.{register_in, period};
ghost use Rattle.script.specs.Told.{clock_between};
ghost use Rattle.clocks.specs.Benches.{SmallClock, clock_at};

use circuit::{Circuit, Register};
use script::{Choice, Kind, Script, chance};

// A circuit, and what its run is told.
#[derive(Clone, Copy)]
pub struct Bench<'a> {
    pub circuit: Circuit<'a>,
    pub script: &'a Script,
}

impl Bench<'_> {
    // When the clock of cycle `n`, which begins at `begin`, comes to register `r`: as told, else by the seed between two
    // moments, else at the first of them.
    fn clock_between(self, n: u64, r: usize, begin: u64, low: u64, high: u64) -> u64
        ensures value { (g rs ts : List ℕ) → begin ≡ n * period ts → begin ≤ 2 ^ 63 → result ≡ clock_between self.entry.script.now g rs ts n r low high }
        ensures bound { result ≤ max (begin + 2 ^ 32) (max low high) }
    {
        match (self.script.said_in(Kind::Clock, n, r), self.script.seed) {
            (Some(e), _) => begin.saturating_add(u64::from(e.one)),
            (None, Some(seed)) => {
                chance::between(Choice::Clock.draw(seed, n, r as u64), low, high)
            }
            (None, None) => low,
        }
    }

    // Register `r`, or one of zeros where there is none.
    fn register(self, r: usize) -> Register
        ensures { result ≡ register_in self.entry.circuit.registers.now r }
    {
        let numbers = self.circuit.registers().get(r).copied();
        Register::from(numbers.unwrap_or([0; 3]))
    }

    // The first clock of register `r`.
    pub fn first_clock(self, r: usize) -> u64
        ensures value { result ≡ clock_at self.entry 0 r }
        ensures bound { result ≤ 2 ^ 32 }
    {
        let register = self.register(r);
        self.clock_between(0, r, 0, u64::from(register.early), u64::from(register.late))
    }

    // The clock of register `r` in cycle `n`, within its bounds and after the one before it.
    pub fn next_clock(self, n: u64, r: usize, before: u64) -> u64
        ensures value { SmallClock self.entry.circuit.times.now n before → (m : ℕ) → n ≡ suc m → before ≡ clock_at self.entry m r → result ≡ clock_at self.entry n r }
        ensures bound { result ≤ max (n * period self.entry.circuit.times.now + 2 ^ 32) (before + 1) }
    {
        let begin = n.saturating_mul(u64::from(self.circuit.period()));
        let register = self.register(r);
        let first = begin.saturating_add(u64::from(register.early));
        let low = first.max(before.saturating_add(1));
        let high = begin.saturating_add(u64::from(register.late));
        self.clock_between(n, r, begin, low, high)
    }
}
