// Room for a circuit on the bench.
ghost use Rattle.std.specs.Prelude.{◌≡◌, ℕ, ◌+◌, ◌<◌, ◌≤◌, IfOk, MatchResult};
ghost use Rattle.circuit.specs.Checked.{of, gates_of, registers_of};
ghost use Rattle.circuit.specs.Lent.{period, early, setup, output_late};
ghost use Rattle.promise.specs.Machine.{machine_in};
ghost use Rattle.step.specs.Stands.{Wide};
ghost use Rattle.trial.specs.Standing.{DelaysWithin, ClocksWithin, Started, BitsReady, AtFirst, Furnished, Standing};
ghost use Rattle.trial.specs.Stopped.{Timeless, Stopped};

use crate::room::Room;
use crate::stop::Stop;
use circuit::{Circuit, Gate, Refusal, Register};
use clocks::{Bench, start_of};
use fitting::fits;
use history::History;
use std::alloc::{AllocError, Global};
use step::State;
use telling::Teller;

// The greatest delay of the gates.
fn greatest_delay(circuit: Circuit<'_>) -> u32
    ensures { DelaysWithin circuit.entry.gates.now (gates_of circuit.entry) result }
{
    let mut greatest: u32 = 0;
    for numbers in circuit.gates() {
        let gate = Gate::from(*numbers);
        greatest = greatest.max(gate.greatest_one).max(gate.greatest_two);
    }
    greatest
}

// The earliest and the latest that a register's clock comes in its cycle.
fn clock_bounds(circuit: Circuit<'_>) -> (u32, u32)
    ensures { ClocksWithin circuit.entry.registers.now (registers_of circuit.entry) result.0 result.1 }
{
    let mut earliest = u32::MAX;
    let mut latest: u32 = 0;
    for numbers in circuit.registers() {
        let register = Register::from(*numbers);
        earliest = earliest.min(register.early);
        latest = latest.max(register.late);
    }
    (earliest, latest)
}

// The bits of the first cycle. A loop over the numbers of registers: a history is written row by row, by number.
fn start_bits(bench: Bench<'_>, bits: &mut History)
    ensures { bits.old.rows ≡ registers_of bench.entry.circuit → of bench.entry.circuit (Started bench.entry.script.now) (registers_of bench.entry.circuit) bits.old bits.new }
{
    for r in 0..bench.circuit.register_count() {
        bits.put(r, 0, start_of(bench.script, r));
    }
}

// That a run is possible: a period takes time, and some moment passes before a register must show what it takes.
fn look_at_times(circuit: Circuit<'_>) -> Result<(), Refusal>
    ensures { MatchResult result (λ _. (0 < period circuit.entry.times.now) × (0 < setup circuit.entry.times.now + output_late circuit.entry.times.now)) (λ e. Timeless circuit.entry.times.now e) }
{
    if circuit.period() == 0 {
        return Err(Refusal::NoPeriod);
    }
    if circuit.output_late() == 0 && circuit.setup() == 0 {
        return Err(Refusal::NoMoment);
    }
    Ok(())
}

// A history that goes back as far as the circuit's delays, and a register's decision, want.
fn past_for(heap: Global, circuit: Circuit<'_>) -> Result<History, AllocError>
    ensures { IfOk result (λ h. Wide (of circuit.entry machine_in) h) }
{
    let delay = greatest_delay(circuit);
    let seen = u64::from(circuit.output_late()) + u64::from(circuit.setup());
    History::new(heap, circuit.signal_count(), seen.max(u64::from(delay)))
}

// The registers' bits at the start, with places for as many cycles as two registers can be apart, if no clock comes
// earlier in its cycle than `earliest`, or later than `latest`.
fn bits_for(
    heap: Global,
    bench: Bench<'_>,
    earliest: u32,
    latest: u32,
) -> Result<History, AllocError>
    requires period { 0 < period bench.circuit.times.now }
    requires early { (q : ℕ) → q < registers_of bench.circuit → earliest ≤ early bench.circuit.registers.now q }
    ensures { IfOk result (λ h. of bench.entry.circuit (BitsReady bench.entry.script.now) latest h) }
{
    let circuit = bench.circuit;
    let cycles = latest.saturating_sub(earliest) / circuit.period();
    let mut bits = History::new(heap, circuit.register_count(), u64::from(cycles))?;
    start_bits(bench, &mut bits);
    Ok(bits)
}

// What is remembered before the first moment, with the registers in their first cycle.
fn state_for(
    heap: Global,
    bench: Bench<'_>,
    earliest: u32,
    latest: u32,
) -> Result<State, AllocError>
    requires period { 0 < period bench.circuit.times.now }
    requires early { (q : ℕ) → q < registers_of bench.circuit → earliest ≤ early bench.circuit.registers.now q }
    ensures { IfOk result (λ b. of bench.entry.circuit (AtFirst bench.entry.script.now) latest b) }
{
    let past = past_for(heap, bench.circuit)?;
    let bits = bits_for(heap, bench, earliest, latest)?;
    let cycles = vec![in heap; 0; bench.circuit.register_count()]?;
    Ok(State { past, bits, cycles })
}

// Room for a circuit and a script.
fn room_for(heap: Global, bench: Bench<'_>) -> Result<Room, AllocError>
    requires { 0 < period bench.circuit.times.now }
    ensures { IfOk result (λ y. of bench.entry.circuit (Furnished bench.entry.script.now) y) }
{
    let (earliest, latest) = clock_bounds(bench.circuit);
    let state = state_for(heap, bench, earliest, latest)?;
    let teller = Teller::new(heap, bench)?;
    Ok(Room {
        state,
        teller,
        latest,
    })
}

// Room for a circuit with a script, before the first moment: with all that a run of it needs, which is one of the runs
// that passing speaks of. Statements that are out of bounds are refused, and then times with which no run is possible.
pub fn prepare(heap: Global, bench: Bench<'_>) -> Result<Room, Stop>
    ensures { MatchResult result
        (λ y. of bench.entry.circuit (Standing bench.entry.script.now) 0 y)
        (λ e. of bench.entry.circuit (Stopped bench.entry.script.now) e) }
{
    fits(bench)?;
    look_at_times(bench.circuit)?;
    Ok(room_for(heap, bench)?)
}
