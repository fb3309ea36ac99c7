// The times of single signals.
ghost use Rattle.std.specs.Prelude.{◌≡◌, ℕ, ◌<◌, ◌≤◌, length, MatchResult, slice_index};
ghost use Rattle.circuit.specs.Checked.{of, signals_of};
ghost use Rattle.circuit.specs.declared.refusal.Refusal.TheVariants.{NoSignal};
ghost use Rattle.arrival.specs.Lent.{time_of};
ghost use Rattle.arrival.specs.declared.edge.Edge.TheVariants.{Late, Early};

use crate::edge::Edge;
use crate::timed::Arrivals;
use circuit::{Circuit, Refusal};

// The latest and the earliest time of a signal.
#[derive(Clone, Copy)]
pub struct Times {
    pub latest: u64,
    pub earliest: u64,
}

impl<'a, 'b> Arrivals<'a, 'b> {
    // The circuit with times that were filled in.
    pub fn new(circuit: Circuit<'a>, latest: &'b [u64], earliest: &'b [u64]) -> Self
        requires room { (signals_of circuit ≤ length latest.now) × (signals_of circuit ≤ length earliest.now) }
        requires late { (k : ℕ) → k < signals_of circuit → slice_index latest.now k ≡ of circuit (time_of Late) k }
        requires early { (k : ℕ) → k < signals_of circuit → slice_index earliest.now k ≡ of circuit (time_of Early) k }
        ensures circuit { (result.circuit.gates.now ≡ circuit.entry.gates.now) × (result.circuit.registers.now ≡ circuit.entry.registers.now) × (result.circuit.times.now ≡ circuit.entry.times.now) }
        ensures times { (result.latest.now ≡ latest.now) × (result.earliest.now ≡ earliest.now) }
    {
        Arrivals {
            circuit,
            latest,
            earliest,
        }
    }

    // The times of all signals on one edge.
    pub fn on(self, edge: Edge) -> &'b [u64]
        ensures room { signals_of self.entry.circuit ≤ length result.now }
        ensures each { (k : ℕ) → k < signals_of self.entry.circuit → slice_index result.now k ≡ of self.entry.circuit (time_of edge) k }
    {
        match edge {
            Edge::Late => self.latest,
            Edge::Early => self.earliest,
        }
    }

    // The times of one signal, or a refusal where it is past the circuit.
    pub fn times(self, signal: usize) -> Result<Times, Refusal>
        ensures { MatchResult result
            (λ x. (signal < signals_of self.entry.circuit)
            × (x.latest ≡ of self.entry.circuit (time_of Late) signal)
            × (x.earliest ≡ of self.entry.circuit (time_of Early) signal))
            (λ e. (e ≡ NoSignal signal) × (signals_of self.entry.circuit ≤ signal)) }
    {
        if signal >= self.circuit.signal_count() {
            return Err(Refusal::NoSignal(signal));
        }
        Ok(Times {
            latest: self.latest[signal],
            earliest: self.earliest[signal],
        })
    }
}
