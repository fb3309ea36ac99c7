// What is told of a gate or register by what is said of it.
ghost use Rattle.std.specs.Prelude.{◌≡◌, ◌≤◌, length};
ghost use Rattle.circuit.specs.Checked.{gates_of, registers_of};
ghost use Rattle.circuit.specs.Lent.{gate_of};
ghost use Rattle.telling.specs.Said.{one_chosen, two_chosen, one_of, two_of, show_of, DelaysSaid, ShowsSaid};

use circuit::Gate;
use clocks::Bench;
use script::{Choice, Entry, chance};
use step::Delays;

// The delays of gate `k` at moment `t` by a seed, within bounds.
fn chosen(gate: Gate, seed: u64, k: usize, t: u64) -> Delays
    ensures one { result.one ≡ one_chosen seed gate k t }
    ensures two { result.two ≡ two_chosen seed gate k t }
{
    let h = Choice::Delay.draw(seed, k as u64, t);
    let one = chance::between(
        h >> 32,
        u64::from(gate.least_one),
        u64::from(gate.greatest_one),
    );
    let two = chance::between(h, u64::from(gate.least_two), u64::from(gate.greatest_two));
    Delays {
        one: one as u32,
        two: two as u32,
    }
}

// The delays of gate `k`, which has these numbers, at moment `t`: as said, else by the seed within bounds, else the least.
fn delays_of(numbers: [u32; 7], seed: Option<u64>, k: usize, t: u64, said: Option<Entry>) -> Delays
    ensures one { result.one ≡ one_of seed (gate_of numbers) k t said }
    ensures two { result.two ≡ two_of seed (gate_of numbers) k t said }
{
    let gate = Gate::from(numbers);
    match (said, seed) {
        (Some(e), _) => Delays {
            one: e.one,
            two: e.two,
        },
        (None, Some(seed)) => chosen(gate, seed, k, t),
        (None, None) => Delays {
            one: gate.least_one,
            two: gate.least_two,
        },
    }
}

// The delays of all gates at moment `t`, by the last statement about each.
pub(crate) fn fill_delays(bench: Bench<'_>, t: u64, said: &[Option<Entry>], delays: &mut [Delays])
    requires said { gates_of bench.circuit ≤ length said.now }
    requires room { gates_of bench.circuit ≤ length delays.old }
    ensures { DelaysSaid bench.entry.script.now bench.entry.circuit.gates.now t (gates_of bench.entry.circuit) said.now delays.new }
{
    let Bench { circuit, script } = bench;
    for (k, numbers) in circuit.gates().iter().enumerate() {
        delays[k] = delays_of(*numbers, script.seed, k, t, said[k]);
    }
}

// What register `r` shows at moment `t` where it may show anything: as said, else by the seed, else 0.
fn show_of(seed: Option<u64>, r: usize, t: u64, said: Option<Entry>) -> bool
    ensures { result ≡ show_of seed r t said }
{
    match (said, seed) {
        (Some(e), _) => e.bit(),
        (None, Some(seed)) => chance::odd(Choice::Show.draw(seed, r as u64, t)),
        (None, None) => false,
    }
}

// What all registers show at moment `t` where they may show anything, by the last statement about each.
pub(crate) fn fill_shows(bench: Bench<'_>, t: u64, said: &[Option<Entry>], shows: &mut [bool])
    requires said { registers_of bench.circuit ≤ length said.now }
    requires room { registers_of bench.circuit ≤ length shows.old }
    ensures { ShowsSaid bench.entry.script.now t (registers_of bench.entry.circuit) said.now shows.new }
{
    for r in 0..bench.circuit.register_count() {
        shows[r] = show_of(bench.script.seed, r, t, said[r]);
    }
}
