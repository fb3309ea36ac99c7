// Latest and earliest times of all signals, in one pass over the gates.
ghost use Rattle.std.specs.Prelude.{◌≡◌, ℕ, ◌+◌, ◌-◌, ◌<◌, ◌≤◌, length, MatchResult};
ghost use Rattle.circuit.specs.Checked.{of, gates_of, registers_of};
ghost use Rattle.circuit.specs.Filled.{Filled};
ghost use Rattle.circuit.specs.Refused.{AllOrFirst};
ghost use Rattle.arrival.specs.Lent.{source, SmallSource, OverSources, OverRegisters, Enough, SourcesFit, SourcesRefused, TimesRefused};
ghost use Rattle.arrival.specs.declared.edge.Edge.TheVariants.{Late, Early};

use crate::edge::Edge;
use circuit::{Circuit, Gate, MOST_GATES, MOST_REGISTERS, Refusal, Register};

// Times of sources are at most this, so that no sum overflows.
pub const LARGEST_SOURCE: u64 = 0x8000_0000_0000_0000;

// As many signals as a circuit can have: room for the times of any.
pub const MOST_SIGNALS: usize = MOST_REGISTERS + MOST_GATES;

// So few signals have most circuits that are tried by themselves: room for their times alone is cleared for them.
pub const FEW_SIGNALS: usize = 512;

// The times of all gates, over the times of `n` sources with which both slices begin. Each turn loads one gate.
fn fill_gates(circuit: Circuit<'_>, n: usize, latest: &mut [u64], earliest: &mut [u64])
    requires sources { registers_of circuit ≤ n }
    requires latest { n + gates_of circuit ≤ length latest.old }
    requires earliest { n + gates_of circuit ≤ length earliest.old }
    requires late { (i : ℕ) → i < n → SmallSource latest.old i }
    requires early { (i : ℕ) → i < n → SmallSource earliest.old i }
    ensures late { OverSources Late n circuit.entry.gates.now latest.old latest.new }
    ensures early { OverSources Early n circuit.entry.gates.now earliest.old earliest.new }
{
    for (k, gate) in circuit.gates().iter().enumerate() {
        let gate = Gate::from(*gate);
        latest[n + k] = Edge::Late.time(gate, latest);
        earliest[n + k] = Edge::Early.time(gate, earliest);
    }
}

// The first of `n` sources whose time is too large.
fn first_large(times: &[u64], n: usize) -> Option<usize>
    requires { n ≤ length times.now }
    ensures { AllOrFirst (SmallSource times.now) n result }
{
    for (i, time) in times[..n].iter().enumerate() {
        if *time > LARGEST_SOURCE {
            return Some(i);
        }
    }
    None
}

// The latest and the earliest time of every signal, over the times of sources with which both slices begin: there are as
// many as the first slice is longer than there are gates, and no fewer than registers. A gate's input with a number below
// theirs is a source, so in longer room not the gate that it would be over the registers. They are two slices, as C lends
// them.
pub fn fill(circuit: Circuit<'_>, latest: &mut [u64], earliest: &mut [u64]) -> Result<(), Refusal>
    ensures { MatchResult result
        (λ _. SourcesFit circuit.entry.gates.now circuit.entry.registers.now latest.old earliest.old
        × OverSources Late (length latest.old - gates_of circuit.entry) circuit.entry.gates.now latest.old latest.new
        × OverSources Early (length latest.old - gates_of circuit.entry) circuit.entry.gates.now earliest.old earliest.new)
        (λ e. SourcesRefused circuit.entry.gates.now circuit.entry.registers.now latest.old earliest.old e
        × (latest.new ≡ latest.old) × (earliest.new ≡ earliest.old)) }
{
    let needed = circuit.signal_count();
    let n = latest.len().saturating_sub(circuit.gate_count());
    if let Some(i) = first_large(latest, n) {
        return Err(Refusal::TooLarge(i));
    }
    if let Some(i) = first_large(earliest, n.min(earliest.len())) {
        return Err(Refusal::TooLarge(latest.len() + i));
    }
    if latest.len() < needed {
        return Err(Refusal::NoRoom(needed));
    }
    if earliest.len() < latest.len() {
        return Err(Refusal::NoRoom(latest.len()));
    }
    fill_gates(circuit, n, latest, earliest);
    Ok(())
}

// The times of the registers.
fn fill_registers(circuit: Circuit<'_>, latest: &mut [u64], earliest: &mut [u64])
    requires latest { registers_of circuit ≤ length latest.old }
    requires earliest { registers_of circuit ≤ length earliest.old }
    ensures late { Filled 0 (registers_of circuit.entry) (source Late circuit.entry.registers.now circuit.entry.times.now) latest.old latest.new }
    ensures early { Filled 0 (registers_of circuit.entry) (source Early circuit.entry.registers.now circuit.entry.times.now) earliest.old earliest.new }
{
    for (r, register) in circuit.registers().iter().enumerate() {
        let register = Register::from(*register);
        latest[r] = u64::from(register.late) + u64::from(circuit.output_late());
        earliest[r] = u64::from(register.early) + u64::from(circuit.output_early());
    }
}

// The latest and the earliest time of every signal of a circuit, from its cycle's beginning.
pub fn fill_from_registers(
    circuit: Circuit<'_>,
    latest: &mut [u64],
    earliest: &mut [u64],
) -> Result<(), Refusal>
    ensures { MatchResult result
        (λ _. Enough circuit.entry.gates.now circuit.entry.registers.now latest.old earliest.old
        × of circuit.entry (OverRegisters Late) latest.old latest.new
        × of circuit.entry (OverRegisters Early) earliest.old earliest.new)
        (λ e. TimesRefused circuit.entry.gates.now circuit.entry.registers.now latest.old earliest.old e
        × (latest.new ≡ latest.old) × (earliest.new ≡ earliest.old)) }
{
    let all = circuit.signal_count();
    if latest.len() < all || earliest.len() < all {
        return Err(Refusal::NoRoom(all));
    }
    fill_registers(circuit, latest, earliest);
    fill_gates(circuit, circuit.register_count(), latest, earliest);
    Ok(())
}
