// The path by which a signal's time is reached, where the times of its fan-in cone are known.
ghost use Rattle.std.specs.Prelude.{◌≡◌, ◌+◌, ◌-◌, ◌*◌, ◌<◌, ◌≤◌, true, false, length, if◌then◌else◌, slice_set};
ghost use Rattle.circuit.specs.Checked.{of, gates_of, registers_of, signals_of};
ghost use Rattle.circuit.specs.Lent.{gate_in};
ghost use Rattle.arrival.specs.Arrival.{delay};
ghost use Rattle.arrival.specs.Lent.{time_of};
ghost use Rattle.path.specs.Path.{input, by_second, told_path, written, BeginsWith, PathTold};
ghost use Rattle.cone.specs.Alone.{KnowsCone, KnowsInputs};

use crate::times::input_times;
use arrival::Edge;
use circuit::{Circuit, Gate};

// The input by which a gate's time is reached, the first if it is by both, and the signal there.
#[derive(Clone, Copy)]
struct Step {
    second: bool,
    from: usize,
}

// Whether the second of two times at a gate's inputs is the gate's own, and the first is not.
fn is_second(edge: Edge, one: u64, two: u64) -> bool
    ensures { result ≡ by_second edge one two }
{
    match edge {
        Edge::Late => one < two,
        Edge::Early => two < one,
    }
}

// The step back from gate `k`.
fn back(circuit: Circuit<'_>, edge: Edge, k: usize, times: &[u64]) -> Step
    requires gate { k < gates_of circuit }
    requires room { signals_of circuit ≤ length times.now }
    requires known { of circuit KnowsInputs edge k times.now }
    ensures second { result.second ≡ by_second edge
        (of circuit.entry (time_of edge) (gate_in circuit.entry.gates.now k).one + delay edge false (gate_in circuit.entry.gates.now k))
        (of circuit.entry (time_of edge) (gate_in circuit.entry.gates.now k).two + delay edge true (gate_in circuit.entry.gates.now k)) }
    ensures from { result.from ≡ input result.second (gate_in circuit.entry.gates.now k) }
    ensures before { result.from < registers_of circuit.entry + k }
{
    let gate = Gate::from(circuit.gates()[k]);
    let at = input_times(circuit, edge, k, times);
    let second = is_second(edge, at.one, at.two);
    let from = if second { gate.two } else { gate.one };
    Step {
        second,
        from: from as usize,
    }
}

// How many gates are on the path to signal `to`.
fn gates_on(circuit: Circuit<'_>, edge: Edge, to: usize, times: &[u64]) -> usize
    requires signal { to < signals_of circuit }
    requires room { signals_of circuit ≤ length times.now }
    requires known { of circuit KnowsCone edge to times.now }
    ensures { result ≡ length (told_path edge circuit.entry to).1 }
{
    let n = circuit.register_count();
    let mut at = to;
    let mut count = 0;
    // Back from signal to signal: no list is gone over.
    while at >= n {
        at = back(circuit, edge, at - n, times).from;
        count += 1;
    }
    count
}

// Writes a gate and the input that it is come in by before place `i`.
fn put_step(out: &mut [u32], i: usize, gate: u32, second: bool)
    requires { (2 ≤ i) × (i ≤ length out.old) }
    ensures { out.new ≡ slice_set (slice_set out.old (i - 1) (if second then 1 else 0)) (i - 2) gate }
{
    out[i - 1] = u32::from(second);
    out[i - 2] = gate;
}

// Writes the path to signal `to`, which goes through `count` gates, from its end to its beginning.
fn put(circuit: Circuit<'_>, edge: Edge, to: usize, count: usize, times: &[u64], out: &mut [u32])
    requires signal { to < signals_of circuit }
    requires times { signals_of circuit ≤ length times.now }
    requires known { of circuit KnowsCone edge to times.now }
    requires steps { count ≡ length (told_path edge circuit to).1 }
    requires room { 1 + 2 * count ≤ length out.old }
    ensures { BeginsWith (written (registers_of circuit.entry) (told_path edge circuit.entry to)) out.old out.new }
{
    let n = circuit.register_count();
    let mut at = to;
    let mut i = 1 + 2 * count;
    // Back from signal to signal; where this ends is the path's source, which an iterator of steps would not give.
    while at >= n {
        let step = back(circuit, edge, at - n, times);
        put_step(out, i, at as u32, step.second);
        i -= 2;
        at = step.from;
    }
    out[0] = at as u32;
}

// Writes the path by which the time of signal `to` is reached, of several the first; answers how many numbers it takes.
pub(crate) fn path_to(
    circuit: Circuit<'_>,
    edge: Edge,
    to: usize,
    times: &[u64],
    out: &mut [u32],
) -> usize
    requires signal { to < signals_of circuit }
    requires times { signals_of circuit ≤ length times.now }
    requires known { of circuit KnowsCone edge to times.now }
    requires room { 1 + 2 * gates_of circuit ≤ length out.old }
    ensures { of circuit.entry (PathTold edge) to result out.old out.new }
{
    let count = gates_on(circuit, edge, to, times);
    put(circuit, edge, to, count, times, out);
    1 + 2 * count
}
