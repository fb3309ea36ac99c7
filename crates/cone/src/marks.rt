// The signals of a fan-in cone.
ghost use Rattle.std.specs.Prelude.{◌≡◌, ℕ, ◌+◌, ◌<◌, ◌≤◌, true, false, length, slice_index_or, slice_set};
ghost use Rattle.circuit.specs.Checked.{of, gates_of, registers_of, signals_of};
ghost use Rattle.circuit.specs.Lent.{gate_in};
ghost use Rattle.cone.specs.Alone.{IsMarked, HasInputs};

use circuit::{Circuit, Gate};

// Marks both inputs of a gate.
fn mark_inputs(circuit: Circuit<'_>, k: usize, marks: &mut [bool])
    requires gate { k < gates_of circuit }
    requires room { signals_of circuit ≤ length marks.old }
    ensures { marks.new ≡ slice_set (slice_set marks.old (gate_in circuit.entry.gates.now k).one true)
        (gate_in circuit.entry.gates.now k).two true }
{
    let gate = Gate::from(circuit.gates()[k]);
    marks[gate.one as usize] = true;
    marks[gate.two as usize] = true;
}

// Marks the signals in the fan-in cone of signal `to`, where none is marked yet.
pub(crate) fn mark_cone(circuit: Circuit<'_>, to: usize, marks: &mut [bool])
    requires signal { to < signals_of circuit }
    requires room { signals_of circuit ≤ length marks.old }
    requires none { (k : ℕ) → slice_index_or marks.old k false ≡ false }
    ensures cone { of circuit.entry IsMarked to marks.new }
    ensures inputs { of circuit.entry HasInputs marks.new }
{
    let n = circuit.register_count();
    marks[to] = true;
    let mut k = (to + 1).saturating_sub(n);
    // Back from gate to gate, as the inputs of a gate come before it.
    while k > 0 {
        k -= 1;
        if marks[n + k] {
            mark_inputs(circuit, k, marks);
        }
    }
}
