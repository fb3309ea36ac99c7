// How far a run has come.
ghost use Rattle.std.specs.Prelude.{◌≡◌, MatchResult};
ghost use Rattle.circuit.specs.Checked.{of};
ghost use Rattle.step.specs.Lent.{EnoughTold, TooFew};
ghost use Rattle.step.specs.Stands.{Steps};

use crate::gates::gates_now;
use crate::told::Now;
use circuit::{Circuit, Refusal};
use history::History;

// What is remembered of a run: the last moments of each signal, each register's bits of its last cycles, and the cycle in
// which each register stands.
#[derive(Drop)]
pub struct State {
    pub past: History,
    pub bits: History,
    pub cycles: Vec<u64>,
}

impl State {
    // One moment: what every register does, and then what every gate makes of its inputs some time ago. Too little that
    // is told, or too few cycles, are refused, and nothing is changed.
    pub fn step(&mut self, circuit: Circuit<'_>, told: Now<'_>) -> Result<(), Refusal>
        ensures { MatchResult result
            (λ _. EnoughTold circuit.entry told.entry self.old × of circuit.entry Steps told.entry self.old self.new)
            (λ e. TooFew circuit.entry told.entry self.old e × (self.new ≡ self.old)) }
    {
        let n = circuit.register_count();
        if self.cycles.len() < n || told.shows.len() < n || told.clocks.len() < n {
            return Err(Refusal::NoRoom(n));
        }
        let gates = circuit.gate_count();
        if told.delays.len() < gates {
            return Err(Refusal::NoRoom(gates));
        }
        self.registers_now(circuit, told);
        gates_now(circuit, told, &mut self.past);
        Ok(())
    }
}
