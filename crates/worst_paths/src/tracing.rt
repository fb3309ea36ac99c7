// From an entry back to the source of its path.
ghost use Rattle.std.specs.Prelude.{◌≡◌, ◌+◌, ◌<◌, ◌≤◌, IfOk, length, map, slice_index_or, vec_items};
ghost use Rattle.circuit.specs.Checked.{of, registers_of, signals_of};
ghost use Rattle.promise.specs.Machine.{machine_in};
ghost use Rattle.worst_paths.specs.FirstPaths.{extended, paths_to};
ghost use Rattle.worst_paths.specs.Entries.{no_path, AreRows};
ghost use Rattle.worst_paths.specs.Value.{step_of};
ghost use Rattle.worst_paths.specs.Traced.{trace_of};

use crate::entry::Entry;
use crate::timing_path::Pin;
use arrival::Edge;
use circuit::{Circuit, Gate};
use std::alloc::{AllocError, Global};

// One step back: the pin by which the path comes in, the signal there, and the rank of what is left of the path.
#[derive(Clone, Copy)]
struct Step {
    pin: Pin,
    from: usize,
    rank: u32,
}

// A source, and the pins from there on.
#[derive(Drop)]
pub(crate) struct Trace {
    pub(crate) source: usize,
    pub(crate) pins: Vec<Pin>,
}

// The step back from a gate.
fn back(circuit: Circuit<'_>, edge: Edge, k: u32, rows: &[Vec<Entry>], at: usize, rank: u32) -> Step
    requires rows { AreRows edge (of circuit machine_in) k (signals_of circuit) (map vec_items rows.now) }
    requires past { registers_of circuit ≤ at }
    requires inside { at < signals_of circuit }
    requires ranked { rank < length (paths_to edge (of circuit machine_in) k at) }
    ensures is { slice_index_or (paths_to edge (of circuit.entry machine_in) k at) rank no_path
        ≡ extended result.pin.gate result.pin.second
        (slice_index_or (paths_to edge (of circuit.entry machine_in) k result.from) result.rank no_path) }
    ensures ranked { result.rank < length (paths_to edge (of circuit.entry machine_in) k result.from) }
    ensures before { result.from < at }
{
    let g = at - circuit.register_count();
    let entry = rows[at][rank as usize];
    let gate = Gate::from(circuit.gates()[g]);
    let second = entry.by == 1;
    let from = if second { gate.two } else { gate.one };
    Step {
        pin: Pin { gate: g, second },
        from: from as usize,
        rank: entry.rank,
    }
}

// The path to a signal that has a rank in its row.
pub(crate) fn traced_path(
    heap: Global,
    circuit: Circuit<'_>,
    edge: Edge,
    k: u32,
    rows: &[Vec<Entry>],
    to: usize,
    rank: u32,
) -> Result<Trace, AllocError>
    requires rows { AreRows edge (of circuit machine_in) k (signals_of circuit) (map vec_items rows.now) }
    requires inside { to < signals_of circuit }
    requires ranked { rank < length (paths_to edge (of circuit machine_in) k to) }
    ensures { IfOk result (λ t.
        trace_of t ≡ slice_index_or (paths_to edge (of circuit.entry machine_in) k to) rank no_path) }
{
    let n = circuit.register_count();
    let mut at = to;
    let mut rank = rank;
    let mut pins = Vec::new(heap);
    while at >= n {
        let step = back(circuit, edge, k, rows, at, rank);
        pins.push(step.pin)?;
        at = step.from;
        rank = step.rank;
    }
    pins.reverse();
    Ok(Trace { source: at, pins })
}
