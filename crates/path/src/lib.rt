// The path by which a signal's latest or earliest time is reached.
#![tactic(auto)]

ghost use Rattle.std.specs.Prelude.{◌≡◌, ◌+◌, ◌-◌, ◌*◌, ◌<◌, ◌≤◌, true, false, length, if◌then◌else◌, MatchResult, slice_set};
ghost use Rattle.circuit.specs.Checked.{of, gates_of, registers_of, signals_of};
ghost use Rattle.circuit.specs.Lent.{gate_in};
ghost use Rattle.arrival.specs.Arrival.{delay};
ghost use Rattle.arrival.specs.Lent.{time_of};
ghost use Rattle.path.specs.Path.{input, by_second, told_path, written, BeginsWith, PathTold, PathRefused, NoneWorse, NoneLonger, ToldIsFirst};

use arrival::{Arrivals, Edge};
use circuit::{Gate, Refusal};

// The input by which a gate's time is reached, the first if it is by both, and the signal there. Which input it is, is the
// bit that `delay` and `by_second` take.
#[derive(Clone, Copy)]
struct Step {
    second: bool,
    from: usize,
}

// Whether the second of two times at a gate's inputs is the gate's own, and the first is not.
fn is_second(edge: Edge, one: u64, two: u64) -> bool
    ensures { result ≡ by_second edge one two }
{
    match edge {
        Edge::Late => one < two,
        Edge::Early => two < one,
    }
}

// The step back from gate `k`.
fn back(a: Arrivals<'_, '_>, edge: Edge, k: usize) -> Step
    requires { k < gates_of a.circuit }
    ensures second { result.second ≡ by_second edge
        (of a.entry.circuit (time_of edge) (gate_in a.entry.circuit.gates.now k).one + delay edge false (gate_in a.entry.circuit.gates.now k))
        (of a.entry.circuit (time_of edge) (gate_in a.entry.circuit.gates.now k).two + delay edge true (gate_in a.entry.circuit.gates.now k)) }
    ensures from { result.from ≡ input result.second (gate_in a.entry.circuit.gates.now k) }
    ensures before { result.from < registers_of a.entry.circuit + k }
{
    let gate = Gate::from(a.circuit.gates()[k]);
    let (first, second) = edge.delays(gate);
    let times = a.on(edge);
    let one = times[gate.one as usize] + u64::from(first);
    let two = times[gate.two as usize] + u64::from(second);
    let second = is_second(edge, one, two);
    let from = if second { gate.two } else { gate.one };
    Step {
        second,
        from: from as usize,
    }
}

// How many gates are on the path to signal `to`.
fn gates_on(a: Arrivals<'_, '_>, edge: Edge, to: usize) -> usize
    requires { to < signals_of a.circuit }
    ensures steps { result ≡ length (told_path edge a.entry.circuit to).1 }
    ensures few { result ≤ to }
{
    let n = a.circuit.register_count();
    let mut at = to;
    let mut count = 0;
    // Back from signal to signal: no list is gone over.
    while at >= n {
        at = back(a, edge, at - n).from;
        count += 1;
    }
    count
}

// Writes a gate and the input that it is come in by before place `i`.
fn put_step(out: &mut [u32], i: usize, gate: u32, second: bool)
    requires { (2 ≤ i) × (i ≤ length out.old) }
    ensures { out.new ≡ slice_set (slice_set out.old (i - 1) (if second then 1 else 0)) (i - 2) gate }
{
    out[i - 1] = u32::from(second);
    out[i - 2] = gate;
}

// Writes the path to signal `to`, which goes through `count` gates, from its end to its beginning.
fn put(a: Arrivals<'_, '_>, edge: Edge, to: usize, count: usize, out: &mut [u32])
    requires signal { to < signals_of a.circuit }
    requires steps { count ≡ length (told_path edge a.circuit to).1 }
    requires room { 1 + 2 * count ≤ length out.old }
    ensures { BeginsWith (written (registers_of a.entry.circuit) (told_path edge a.entry.circuit to)) out.old out.new }
{
    let n = a.circuit.register_count();
    let mut at = to;
    let mut i = 1 + 2 * count;
    // Back from signal to signal; where this ends is the path's source, which an iterator of steps would not give.
    while at >= n {
        let step = back(a, edge, at - n);
        put_step(out, i, at as u32, step.second);
        i -= 2;
        at = step.from;
    }
    out[0] = at as u32;
}

// Writes the path by which a signal's latest or earliest time is reached, of several the first, and answers how many
// numbers it takes. A signal past the circuit, or room that is too short for this path, is refused; room for one number
// and two for each gate is never too short.
pub fn path(
    a: Arrivals<'_, '_>,
    edge: Edge,
    signal: usize,
    out: &mut [u32],
) -> Result<usize, Refusal>
    ensures { MatchResult result
        (λ len. (signal < signals_of a.entry.circuit) × of a.entry.circuit (PathTold edge) signal len out.old out.new)
        (λ e. of a.entry.circuit (PathRefused edge) signal out.old e × (out.new ≡ out.old)) }
{
    if signal >= a.circuit.signal_count() {
        return Err(Refusal::NoSignal(signal));
    }
    let count = gates_on(a, edge, signal);
    let len = 1 + 2 * count;
    if out.len() < len {
        return Err(Refusal::NoRoom(len));
    }
    put(a, edge, signal, count, out);
    Ok(len)
}

// No path has a later latest time, or an earlier earliest time, than the signal that it leads to.
pub fn none_worse() -> u8
    ensures { NoneWorse }
{
    0
}

// No path has more steps than there are gates.
pub fn none_longer() -> u8
    ensures { NoneLonger }
{
    0
}

// The told path is one by which the time is reached, and the first of these.
pub fn told_is_first() -> u8
    ensures { ToldIsFirst }
{
    0
}
