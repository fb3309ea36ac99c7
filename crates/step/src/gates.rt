// The gates at one moment.
ghost use Rattle.std.specs.Prelude.{◌≡◌, ◌-◌, ◌≤◌, length};
ghost use Rattle.circuit.specs.Checked.{of, gates_of, signals_of};
ghost use Rattle.circuit.specs.Gate.{output};
ghost use Rattle.history.specs.Kept.{kept};
ghost use Rattle.step.specs.Stands.{Settles};

use crate::told::{Delays, Now};
use circuit::{Circuit, Gate, table};
use history::History;

// What a gate makes at moment `t` of its inputs, each some time ago.
fn gate_now(gate: Gate, delays: Delays, t: u64, past: &History) -> bool
    ensures { result ≡ output gate.table (kept past.now gate.one (t - delays.one)) (kept past.now gate.two (t - delays.two)) }
{
    let one = past.get(gate.one as usize, t.saturating_sub(u64::from(delays.one)));
    let two = past.get(gate.two as usize, t.saturating_sub(u64::from(delays.two)));
    table::output(gate.table, one, two)
}

// All gates, where the registers show what they do.
pub(crate) fn gates_now(circuit: Circuit<'_>, told: Now<'_>, past: &mut History)
    requires { gates_of circuit ≤ length told.delays.now }
    ensures { of circuit.entry Settles told.entry.moment told.entry.delays.now (signals_of circuit.entry) past.old past.new }
{
    let n = circuit.register_count();
    for (k, gate) in circuit.gates().iter().enumerate() {
        let bit = gate_now(Gate::from(*gate), told.delays[k], told.moment, past);
        past.put(n + k, told.moment, bit);
    }
}
