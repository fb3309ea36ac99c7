// Rows of the first paths to each signal, and those that end at registers.
ghost use Rattle.std.specs.Prelude.{◌≡◌, ℕ, ◌+◌, ◌<◌, ◌≤◌, IfOk, length, map, vec_items};
ghost use Rattle.std.specs.List.{AllZip};
ghost use Rattle.circuit.specs.Checked.{of, gates_of, registers_of, signals_of};
ghost use Rattle.promise.specs.Machine.{machine_in};
ghost use Rattle.worst_paths.specs.WorstPaths.{launch_time};
ghost use Rattle.worst_paths.specs.FirstPaths.{capture_clock, register_paths};
ghost use Rattle.worst_paths.specs.Entries.{IsRow, AreRows, IsEndEntry};

use crate::entry::Entry;
use crate::merging::merge;
use crate::offer::Offer;
use arrival::Edge;
use circuit::{Circuit, Gate, LARGEST, Register};
use std::alloc::{AllocError, Global};

// The latest or the earliest time at which a register's output changes.
fn launch_time(circuit: Circuit<'_>, edge: Edge, r: usize) -> u64
    requires { r < registers_of circuit }
    ensures time { result ≡ launch_time edge (of circuit.entry machine_in) r }
    ensures small { result ≤ 2000000 }
{
    let register = Register::from(circuit.registers()[r]);
    match edge {
        Edge::Late => u64::from(register.late + circuit.output_late()),
        Edge::Early => u64::from(register.early + circuit.output_early()),
    }
}

// How much later than a register's clock the latest clock of any circuit is.
fn shift(circuit: Circuit<'_>, edge: Edge, r: usize) -> u64
    requires { r < registers_of circuit }
    ensures { result + capture_clock edge (of circuit.entry machine_in) r ≡ 1000000 }
{
    let register = Register::from(circuit.registers()[r]);
    match edge {
        Edge::Late => u64::from(LARGEST - register.early),
        Edge::Early => u64::from(LARGEST - register.late),
    }
}

// The row of a register's output.
fn source_row(
    heap: Global,
    circuit: Circuit<'_>,
    edge: Edge,
    r: usize,
) -> Result<Vec<Entry>, AllocError>
    requires { r < registers_of circuit }
    ensures { IfOk result (λ v. (k : ℕ) → IsRow edge (of circuit.entry machine_in) k r (vec_items v)) }
{
    let mut row = Vec::with_capacity(heap, 1)?;
    row.push(Entry {
        time: launch_time(circuit, edge, r),
        by: 0,
        rank: 0,
    })?;
    Ok(row)
}

// The row of a gate, from those before it.
fn gate_row(
    heap: Global,
    circuit: Circuit<'_>,
    edge: Edge,
    k: u32,
    rows: &[Vec<Entry>],
    g: usize,
) -> Result<Vec<Entry>, AllocError>
    requires inside { g < gates_of circuit }
    requires rows { AreRows edge (of circuit machine_in) k (registers_of circuit + g) (map vec_items rows.now) }
    ensures { IfOk result (λ v.
        IsRow edge (of circuit.entry machine_in) k (registers_of circuit.entry + g) (vec_items v)) }
{
    let gate = Gate::from(circuit.gates()[g]);
    let (first, second) = edge.delays(gate);
    let one = Offer {
        row: &rows[gate.one as usize],
        delay: u64::from(first),
        by: Some(0),
    };
    let two = Offer {
        row: &rows[gate.two as usize],
        delay: u64::from(second),
        by: Some(1),
    };
    merge(heap, edge, k, one, two)
}

// The rows of all signals.
pub(crate) fn all_rows(
    heap: Global,
    circuit: Circuit<'_>,
    edge: Edge,
    k: u32,
) -> Result<Vec<Vec<Entry>>, AllocError>
    ensures { IfOk result (λ v.
        AreRows edge (of circuit.entry machine_in) k (signals_of circuit.entry) (map vec_items (vec_items v))) }
{
    let mut rows = Vec::with_capacity(heap, circuit.signal_count())?;
    for r in 0..circuit.register_count() {
        rows.push(source_row(heap, circuit, edge, r)?)?;
    }
    for g in 0..circuit.gate_count() {
        let row = gate_row(heap, circuit, edge, k, &rows, g)?;
        rows.push(row)?;
    }
    Ok(rows)
}

// The first paths that end at registers up to `r`, from those that end at registers below it.
fn end_row(
    heap: Global,
    circuit: Circuit<'_>,
    edge: Edge,
    k: u32,
    rows: &[Vec<Entry>],
    ends: &[Entry],
    r: usize,
) -> Result<Vec<Entry>, AllocError>
    requires inside { r < registers_of circuit }
    requires rows { AreRows edge (of circuit machine_in) k (signals_of circuit) (map vec_items rows.now) }
    requires ends { AllZip (IsEndEntry edge (of circuit machine_in) k) ends.now
        (register_paths edge (of circuit machine_in) 1000000 k r) }
    ensures { IfOk result (λ v. AllZip (IsEndEntry edge (of circuit.entry machine_in) k) (vec_items v)
        (register_paths edge (of circuit.entry machine_in) 1000000 k (r + 1))) }
{
    let register = Register::from(circuit.registers()[r]);
    let before = Offer {
        row: ends,
        delay: 0,
        by: None,
    };
    let here = Offer {
        row: &rows[register.signal as usize],
        delay: shift(circuit, edge, r),
        by: Some(r as u32),
    };
    merge(heap, edge, k, before, here)
}

// The first paths that end at registers.
pub(crate) fn all_ends(
    heap: Global,
    circuit: Circuit<'_>,
    edge: Edge,
    k: u32,
    rows: &[Vec<Entry>],
) -> Result<Vec<Entry>, AllocError>
    requires rows { AreRows edge (of circuit machine_in) k (signals_of circuit) (map vec_items rows.now) }
    ensures { IfOk result (λ v. AllZip (IsEndEntry edge (of circuit.entry machine_in) k) (vec_items v)
        (register_paths edge (of circuit.entry machine_in) 1000000 k (registers_of circuit.entry))) }
{
    let mut ends = Vec::new(heap);
    for r in 0..circuit.register_count() {
        ends = end_row(heap, circuit, edge, k, rows, &ends, r)?;
    }
    Ok(ends)
}
