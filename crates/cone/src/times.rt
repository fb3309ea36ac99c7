// The times of the signals of a fan-in cone.
ghost use Rattle.std.specs.Prelude.{◌≡◌, ◌+◌, ◌<◌, ◌≤◌, true, false, length};
ghost use Rattle.circuit.specs.Checked.{of, gates_of, registers_of, signals_of};
ghost use Rattle.circuit.specs.Lent.{gate_in};
ghost use Rattle.arrival.specs.Arrival.{delay};
ghost use Rattle.arrival.specs.Lent.{source, time_of};
ghost use Rattle.cone.specs.Alone.{HasInputs, KnowsMarked, KnowsInputs};

use arrival::Edge;
use circuit::{Circuit, Gate, Register};

// The time of a register's output.
fn launch(circuit: Circuit<'_>, edge: Edge, r: usize) -> u64
    requires { r < registers_of circuit }
    ensures { result ≡ source edge circuit.entry.registers.now circuit.entry.times.now r }
{
    let register = Register::from(circuit.registers()[r]);
    match edge {
        Edge::Late => u64::from(register.late) + u64::from(circuit.output_late()),
        Edge::Early => u64::from(register.early) + u64::from(circuit.output_early()),
    }
}

// The times at the two inputs of a gate, each with its delay.
#[derive(Clone, Copy)]
pub(crate) struct AtInputs {
    pub(crate) one: u64,
    pub(crate) two: u64,
}

pub(crate) fn input_times(circuit: Circuit<'_>, edge: Edge, k: usize, times: &[u64]) -> AtInputs
    requires gate { k < gates_of circuit }
    requires room { signals_of circuit ≤ length times.now }
    requires known { of circuit KnowsInputs edge k times.now }
    ensures one { result.one ≡ of circuit.entry (time_of edge) (gate_in circuit.entry.gates.now k).one
        + delay edge false (gate_in circuit.entry.gates.now k) }
    ensures two { result.two ≡ of circuit.entry (time_of edge) (gate_in circuit.entry.gates.now k).two
        + delay edge true (gate_in circuit.entry.gates.now k) }
{
    let gate = Gate::from(circuit.gates()[k]);
    let (first, second) = edge.delays(gate);
    AtInputs {
        one: times[gate.one as usize] + u64::from(first),
        two: times[gate.two as usize] + u64::from(second),
    }
}

// The time of a gate's signal.
fn gate_time(circuit: Circuit<'_>, edge: Edge, k: usize, times: &[u64]) -> u64
    requires gate { k < gates_of circuit }
    requires room { signals_of circuit ≤ length times.now }
    requires known { of circuit KnowsInputs edge k times.now }
    ensures { result ≡ of circuit.entry (time_of edge) (registers_of circuit.entry + k) }
{
    let at = input_times(circuit, edge, k, times);
    match edge {
        Edge::Late => at.one.max(at.two),
        Edge::Early => at.one.min(at.two),
    }
}

// The times of the marked registers.
fn fill_registers(circuit: Circuit<'_>, edge: Edge, marks: &[bool], times: &mut [u64])
    requires marks { signals_of circuit ≤ length marks.now }
    requires room { signals_of circuit ≤ length times.old }
    ensures { of circuit.entry KnowsMarked edge marks.now (registers_of circuit.entry) times.new }
{
    for r in 0..circuit.register_count() {
        if marks[r] {
            times[r] = launch(circuit, edge, r);
        }
    }
}

// The time of gate `k`, if it is marked.
fn fill_gate(circuit: Circuit<'_>, edge: Edge, marks: &[bool], k: usize, times: &mut [u64])
    requires gate { k < gates_of circuit }
    requires marks { signals_of circuit ≤ length marks.now }
    requires inputs { of circuit HasInputs marks.now }
    requires room { signals_of circuit ≤ length times.old }
    requires before { of circuit KnowsMarked edge marks.now (registers_of circuit + k) times.old }
    ensures { of circuit.entry KnowsMarked edge marks.now (registers_of circuit.entry + (k + 1)) times.new }
{
    let signal = circuit.register_count() + k;
    if !marks[signal] {
        return;
    }
    times[signal] = gate_time(circuit, edge, k, times);
}

// The times of all marked signals; where a gate is marked, so are its inputs. No other signal's time is found.
pub(crate) fn fill_marked(circuit: Circuit<'_>, edge: Edge, marks: &[bool], times: &mut [u64])
    requires marks { signals_of circuit ≤ length marks.now }
    requires inputs { of circuit HasInputs marks.now }
    requires room { signals_of circuit ≤ length times.old }
    ensures { of circuit.entry KnowsMarked edge marks.now (signals_of circuit.entry) times.new }
{
    fill_registers(circuit, edge, marks, times);
    for k in 0..circuit.gate_count() {
        fill_gate(circuit, edge, marks, k, times);
    }
}
