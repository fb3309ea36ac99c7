// Why what is told on a line does not fit a circuit: the bounds that it is out of.
#![tactic(auto)]

ghost use Rattle.std.specs.Prelude.{◌≡◌, ℕ, ◌<◌, ◌≤◌, length, Some, None, MatchOption};
ghost use Rattle.circuit.specs.Checked.{of};
ghost use Rattle.script.specs.Entries.{entry};
ghost use Rattle.script.specs.Told.{DelayFits};
ghost use Rattle.fitting.specs.Misfit.{ClockWithin};
ghost use Rattle.misfit.specs.Outside.{Out, DelayOutside, ClockOutside, WithinOn, Outside};

use circuit::{Circuit, Gate, Register};
use detail::Input;
use detail::bounds::Bounded;
pub use detail::bounds::Misfit;
use script::{Entry, Script};

// A number with its bounds, if it is out of them.
fn outside(told: u32, least: u32, greatest: u32) -> Option<Bounded>
    ensures { MatchOption result ((least ≤ told) × (told ≤ greatest)) (λ b. Out b told least greatest) }
{
    let bounded = Bounded {
        told,
        least,
        greatest,
    };
    if (least..=greatest).contains(&told) {
        None
    } else {
        Some(bounded)
    }
}

// What a told delay is out of.
fn delay_misfit(circuit: Circuit<'_>, script: &Script, e: Entry) -> Option<Misfit>
    ensures { MatchOption result
        (of circuit.entry (DelayFits script.now) e)
        (λ w. of circuit.entry (DelayOutside script.now) e w) }
{
    let first = circuit.register_count();
    let k = e.who as usize;
    let Some(numbers) = circuit.gates().get(k) else {
        let end = circuit.signal_count();
        return Some(Misfit::NoGate { first, end });
    };
    let gate = Gate::from(*numbers);
    let signal = first + k;
    if let Some(bounded) = outside(e.one, gate.least_one, gate.greatest_one) {
        let input = Input::First;
        return Some(Misfit::Delay {
            signal,
            input,
            bounded,
        });
    }
    let bounded = outside(e.two, gate.least_two, gate.greatest_two)?;
    let input = Input::Second;
    Some(Misfit::Delay {
        signal,
        input,
        bounded,
    })
}

// What a told clock is out of.
fn clock_misfit(circuit: Circuit<'_>, script: &Script, e: Entry) -> Option<Misfit>
    ensures { MatchOption result
        (ClockWithin circuit.entry.registers.now e)
        (λ w. of circuit.entry (ClockOutside script.now) e w) }
{
    let register = e.who as usize;
    let Some(numbers) = circuit.registers().get(register) else {
        return Some(Misfit::NoRegister(circuit.register_count()));
    };
    let times = Register::from(*numbers);
    let bounded = outside(e.one, times.early, times.late)?;
    Some(Misfit::Clock { register, bounded })
}

// The first misfit among the delays that are told on a line.
fn delay_on(circuit: Circuit<'_>, script: &Script, line: usize) -> Option<Misfit>
    ensures { MatchOption result
        ((i : ℕ) → i < length script.now.delays → (entry script.now.delays i).line ≡ line → of circuit.entry (DelayFits script.now) (entry script.now.delays i))
        (λ w. (i : ℕ) × (i < length script.now.delays) × ((entry script.now.delays i).line ≡ line) × of circuit.entry (DelayOutside script.now) (entry script.now.delays i) w) }
{
    for e in script.delays.as_slice() {
        if e.line == line {
            if let Some(found) = delay_misfit(circuit, script, *e) {
                return Some(found);
            }
        }
    }
    None
}

// The first misfit among the clocks that are told on a line.
fn clock_on(circuit: Circuit<'_>, script: &Script, line: usize) -> Option<Misfit>
    ensures { MatchOption result
        ((i : ℕ) → i < length script.now.clocks → (entry script.now.clocks i).line ≡ line → ClockWithin circuit.entry.registers.now (entry script.now.clocks i))
        (λ w. (i : ℕ) × (i < length script.now.clocks) × ((entry script.now.clocks i).line ≡ line) × of circuit.entry (ClockOutside script.now) (entry script.now.clocks i) w) }
{
    for e in script.clocks.as_slice() {
        if e.line == line {
            if let Some(found) = clock_misfit(circuit, script, *e) {
                return Some(found);
            }
        }
    }
    None
}

// What is out of its bounds on a line; None where all that is told there is within them.
pub fn explain(circuit: Circuit<'_>, script: &Script, line: usize) -> Option<Misfit>
    ensures { MatchOption result
        (of circuit.entry (WithinOn script.now) line)
        (λ w. of circuit.entry (Outside script.now) line w) }
{
    if let Some(found) = delay_on(circuit, script, line) {
        return Some(found);
    }
    clock_on(circuit, script, line)
}
