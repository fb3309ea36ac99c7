// Whether all that a script tells lies within the bounds of a circuit.
#![tactic(auto)]

ghost use Rattle.std.specs.Prelude.{◌≡◌, ◌+◌, ◌*◌, ◌^◌, ◌<◌, ◌≤◌, ◌&&◌, nat_le, MatchResult};
ghost use Rattle.circuit.specs.Checked.{of, registers_of};
ghost use Rattle.circuit.specs.Lent.{period};
ghost use Rattle.script.specs.Told.{DelayFits, Fits};
ghost use Rattle.clocks.specs.Benches.{clock_at};
ghost use Rattle.fitting.specs.Misfit.{FirstMisfitIn, earlier, ClockWithin, clock_passes, delay_passes, TurnOf, TurnsBelow, Misfit};

use circuit::{Circuit, Gate, Refusal, Register};
use clocks::Bench;
use script::Entry;

// The earlier of two lines.
fn earlier(a: Option<usize>, b: Option<usize>) -> Option<usize>
    ensures { result ≡ earlier a b }
{
    match (a, b) {
        (None, other) | (other, None) => other,
        (Some(line), Some(other)) => Some(line.min(other)),
    }
}

// Whether a number lies within its bounds.
fn within(told: u32, least: u32, greatest: u32) -> bool
    ensures { result ≡ (nat_le least told && nat_le told greatest) }
{
    (least..=greatest).contains(&told)
}

// Whether a told delay is one of a gate, and within its bounds.
fn delay_fits(circuit: Circuit<'_>, e: &Entry) -> bool
    ensures { result ≡ delay_passes circuit.entry.gates.now e.now }
{
    let Some(numbers) = circuit.gates().get(e.who as usize) else {
        return false;
    };
    let gate = Gate::from(*numbers);
    within(e.one, gate.least_one, gate.greatest_one)
        && within(e.two, gate.least_two, gate.greatest_two)
}

// Whether a told clock is one of a register, and within its bounds.
fn clock_within(circuit: Circuit<'_>, e: &Entry) -> bool
    ensures { result ≡ clock_passes circuit.entry.registers.now e.now }
{
    let Some(numbers) = circuit.registers().get(e.who as usize) else {
        return false;
    };
    let register = Register::from(*numbers);
    within(e.one, register.early, register.late)
}

// The first line on which a delay does not fit.
fn misfit_delay(bench: Bench<'_>) -> Option<usize>
    ensures { FirstMisfitIn (of bench.entry.circuit (DelayFits bench.entry.script.now)) bench.entry.script.now.delays result }
{
    let mut first = None;
    for e in bench.script.delays.as_slice() {
        if !delay_fits(bench.circuit, e) {
            first = earlier(first, Some(e.line));
        }
    }
    first
}

// The first line on which a clock is out of its register's bounds.
fn misfit_clock(bench: Bench<'_>) -> Option<usize>
    ensures { FirstMisfitIn (ClockWithin bench.entry.circuit.registers.now) bench.entry.script.now.clocks result }
{
    let mut first = None;
    for e in bench.script.clocks.as_slice() {
        if !clock_within(bench.circuit, e) {
            first = earlier(first, Some(e.line));
        }
    }
    first
}

// The clock of register `r` in cycle `to`, from its clock in cycle `from`. A loop, as each clock is found from the one
// before it.
fn walk(bench: Bench<'_>, r: usize, from: u64, clock: u64, to: u64) -> u64
    requires order { from ≤ to }
    requires small { to < 2 ^ 32 }
    requires clock { clock ≡ clock_at bench from r }
    requires bound { clock ≤ from * period bench.circuit.times.now + from + 2 ^ 32 }
    ensures value { result ≡ clock_at bench.entry to r }
    ensures bound { result ≤ to * period bench.entry.circuit.times.now + to + 2 ^ 32 }
{
    let mut c = clock;
    for n in from..to {
        c = bench.next_clock(n + 1, r, c);
    }
    c
}

// The first line on which a clock of register `r` does not come after the one before it.
fn misfit_turn(bench: Bench<'_>, r: usize) -> Option<usize>
    ensures { FirstMisfitIn (of bench.entry.circuit (TurnOf bench.entry.script.now) r) bench.entry.script.now.clocks result }
{
    let period = u64::from(bench.circuit.period());
    let mut first = None;
    let mut n = 0;
    let mut clock = bench.first_clock(r);
    for e in bench.script.clocks.as_slice() {
        let when = u64::from(e.when);
        let one = u64::from(e.one);
        if e.who as usize == r && when > 0 {
            clock = walk(bench, r, n, clock, when - 1);
            n = when - 1;
            if clock >= when * period + one {
                first = earlier(first, Some(e.line));
            }
        }
    }
    first
}

// The first line on which a clock does not come after the one before it at its register.
fn misfit_turns(bench: Bench<'_>) -> Option<usize>
    ensures { FirstMisfitIn (of bench.entry.circuit (TurnsBelow bench.entry.script.now) (registers_of bench.entry.circuit)) bench.entry.script.now.clocks result }
{
    let mut first = None;
    for r in 0..bench.circuit.register_count() {
        first = earlier(first, misfit_turn(bench, r));
    }
    first
}

// Whether all that a script tells lies within the bounds of a circuit, and told clocks come one after another; else the
// first line on which something does not.
pub fn fits(bench: Bench<'_>) -> Result<(), Refusal>
    ensures { MatchResult result
        (λ _. of bench.entry.circuit (Fits bench.entry.script.now))
        (λ e. of bench.entry.circuit (Misfit bench.entry.script.now) e) }
{
    let clocks = earlier(misfit_clock(bench), misfit_turns(bench));
    match earlier(misfit_delay(bench), clocks) {
        None => Ok(()),
        Some(line) => Err(Refusal::OutOfBounds(line)),
    }
}
