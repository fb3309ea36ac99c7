// A circuit whose arrival times are known.
ghost use Rattle.std.specs.Prelude.{◌≡◌, ℕ, ◌<◌, ◌≤◌, length, slice_index};
ghost use Rattle.circuit.specs.Checked.{of, signals_of};
ghost use Rattle.arrival.specs.Lent.{time_of};
ghost use Rattle.arrival.specs.declared.edge.Edge.TheVariants.{Late, Early};

use circuit::Circuit;

// A circuit with the latest and the earliest time of each of its signals. A value is made only where these are known, so
// code that has one looks times up without a test.
#[derive(Clone, Copy)]
pub struct Arrivals<'a, 'b> {
    pub circuit: Circuit<'a>,
    pub latest: &'b [u64],
    pub earliest: &'b [u64],
    ghost room: { (signals_of circuit ≤ length latest.now) × (signals_of circuit ≤ length earliest.now) },
    ghost late: { (k : ℕ) → k < signals_of circuit → slice_index latest.now k ≡ of circuit (time_of Late) k },
    ghost early: { (k : ℕ) → k < signals_of circuit → slice_index earliest.now k ≡ of circuit (time_of Early) k },
}
