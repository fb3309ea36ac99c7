// The steps of paths, looked up in a circuit and its times.
ghost use Rattle.std.specs.Prelude.{◌≤◌, ◌<◌, ◌⊎◌, MatchOption};
ghost use Rattle.circuit.specs.Checked.{gates_of, registers_of, signals_of};
ghost use Rattle.path_table.specs.Row.{IsStep, IsStepOn};

pub use crate::shown::Step;
use arrival::{Arrivals, Edge};
use circuit::{Circuit, Gate};

// The step to a gate's signal by one of its inputs, None where the signal is no gate's.
pub fn step(a: Arrivals<'_, '_>, edge: Edge, signal: usize, second: bool) -> Option<Step>
    ensures { MatchOption result
        ((signal < registers_of a.entry.circuit) ⊎ (signals_of a.entry.circuit ≤ signal))
        (IsStep edge a.entry.circuit signal second) }
{
    let n = a.circuit.register_count();
    if signal < n || signal >= a.circuit.signal_count() {
        return None;
    }
    let gate = Gate::from(a.circuit.gates()[signal - n]);
    let (one, two) = edge.delays(gate);
    Some(Step {
        signal,
        table: gate.table,
        second,
        delay: if second { two } else { one },
        time: a.on(edge)[signal],
    })
}

/// The step through a gate by one of its inputs, of a path that comes to that input's signal at a time. None where there is no
/// such gate.
pub fn step_on(
    circuit: Circuit<'_>,
    edge: Edge,
    gate: usize,
    second: bool,
    before: u64,
) -> Option<Step>
    ensures { MatchOption result
        (gates_of circuit.entry ≤ gate)
        (IsStepOn edge circuit.entry gate second before) }
{
    if gate >= circuit.gate_count() {
        return None;
    }
    let row = Gate::from(circuit.gates()[gate]);
    let (one, two) = edge.delays(row);
    let delay = if second { two } else { one };
    Some(Step {
        signal: circuit.register_count() + gate,
        table: row.table,
        second,
        delay,
        time: before.saturating_add(u64::from(delay)),
    })
}
