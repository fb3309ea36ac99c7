// The worst paths that end at registers.
ghost use Rattle.std.specs.Prelude.{◌≡◌, ◌^◌, ◌<◌, IfOk, IfErr, length, map, vec_items, pos, ◌+ℤ◌, ◌<ℤ◌, ◌≤ℤ◌};
ghost use Rattle.std.specs.List.{All};
ghost use Rattle.circuit.specs.Checked.{of, registers_of, signals_of};
ghost use Rattle.circuit.specs.Lent.{takes};
ghost use Rattle.promise.specs.Machine.{machine_in};
ghost use Rattle.slack.specs.Required.{required_of};
ghost use Rattle.worst_paths.specs.WorstPaths.{slack_at, WorstPaths};
ghost use Rattle.worst_paths.specs.FirstPaths.{paths_to, ending_at};
ghost use Rattle.worst_paths.specs.Entries.{ranked, AreRows};
ghost use Rattle.worst_paths.specs.Refused.{IsListable, IsRefused};
ghost use Rattle.worst_paths.specs.Value.{path_of, HasItsTimes};

use crate::entry::Entry;
use crate::error::WorstError;
use crate::rows::{all_ends, all_rows};
use crate::timing_path::TimingPath;
use crate::tracing::traced_path;
use arrival::Edge;
use circuit::{Circuit, Register};
use std::alloc::{AllocError, Global};

/// No more paths than these are listed.
pub const MOST_PATHS: usize = 100;

// The time by which a register needs its signal, or for the earliest times from which on it does.
fn required(circuit: Circuit<'_>, edge: Edge, r: usize) -> i64
    requires { r < registers_of circuit }
    ensures time { result ≡ required_of edge (of circuit.entry machine_in) r }
    ensures small { (result <ℤ pos (2 ^ 34)) × (pos 0 ≤ℤ (result +ℤ pos (2 ^ 34))) }
{
    let register = Register::from(circuit.registers()[r]);
    match edge {
        Edge::Late => {
            i64::from(circuit.period()) + i64::from(register.early) - i64::from(circuit.setup())
        }
        Edge::Early => i64::from(register.late) + i64::from(circuit.hold()) + 1,
    }
}

// What a register has to spare where its signal comes at a time.
fn slack(circuit: Circuit<'_>, edge: Edge, r: usize, time: u64) -> i64
    requires inside { r < registers_of circuit }
    requires small { time < 2 ^ 40 }
    ensures { result ≡ slack_at edge (of circuit.entry machine_in) r time }
{
    let required = required(circuit, edge, r);
    match edge {
        Edge::Late => required - time as i64,
        Edge::Early => time as i64 - required,
    }
}

// The path of an entry, with its times.
fn path_at(
    heap: Global,
    circuit: Circuit<'_>,
    edge: Edge,
    k: u32,
    rows: &[Vec<Entry>],
    entry: Entry,
) -> Result<TimingPath, AllocError>
    requires rows { AreRows edge (of circuit machine_in) k (signals_of circuit) (map vec_items rows.now) }
    requires below { entry.by < registers_of circuit }
    requires ranked { entry.rank
        < length (paths_to edge (of circuit machine_in) k (takes circuit.registers.now entry.by)) }
    ensures path { IfOk result (λ p. path_of p ≡ ending_at entry.by
        (ranked edge (of circuit.entry machine_in) k (takes circuit.entry.registers.now entry.by) entry)) }
    ensures times { IfOk result (HasItsTimes edge (of circuit.entry machine_in)) }
{
    let r = entry.by as usize;
    let register = Register::from(circuit.registers()[r]);
    let signal = register.signal as usize;
    let arrival = rows[signal][entry.rank as usize].time;
    let trace = traced_path(heap, circuit, edge, k, rows, signal, entry.rank)?;
    Ok(TimingPath {
        register: r,
        source: trace.source,
        pins: trace.pins,
        slack: slack(circuit, edge, r, arrival),
        arrival,
        required: required(circuit, edge, r),
    })
}

// The first `k` paths.
fn listed(
    heap: Global,
    circuit: Circuit<'_>,
    edge: Edge,
    k: u32,
) -> Result<Vec<TimingPath>, AllocError>
    requires { 0 < k }
    ensures paths { IfOk result (λ v. WorstPaths edge (of circuit.entry machine_in) k (map path_of (vec_items v))) }
    ensures times { IfOk result (λ v. All (HasItsTimes edge (of circuit.entry machine_in)) (vec_items v)) }
{
    let rows = all_rows(heap, circuit, edge, k)?;
    let ends = all_ends(heap, circuit, edge, k, &rows)?;
    let mut paths = Vec::new(heap);
    for entry in ends.iter() {
        paths.push(path_at(heap, circuit, edge, k, &rows, *entry)?)?;
    }
    Ok(paths)
}

/// The `k` worst paths that end at registers, the smallest slack first: for the latest times the setup slack, for the
/// earliest the hold slack. All of them where there are fewer. A path counts once for each register that takes its end.
/// Of equal ones the lower register comes first, and of one register's the path that comes in by the first input where
/// it parts from the other, looking back from the register. From 1 to 100 paths are listed; other numbers are refused.
///
/// At most `k` entries of 16 bytes are kept for each signal.
pub fn worst(
    heap: Global,
    circuit: Circuit<'_>,
    edge: Edge,
    k: usize,
) -> Result<Vec<TimingPath>, WorstError>
    ensures paths { IfOk result (λ v. WorstPaths edge (of circuit.entry machine_in) k (map path_of (vec_items v))) }
    ensures times { IfOk result (λ v. All (HasItsTimes edge (of circuit.entry machine_in)) (vec_items v)) }
    ensures range { IfOk result (λ _. IsListable k) }
    ensures refused { IfErr result (IsRefused k) }
{
    if k == 0 || k > MOST_PATHS {
        return Err(WorstError::OutOfRange(k));
    }
    let paths = listed(heap, circuit, edge, k as u32)?;
    Ok(paths)
}
