// Who tells what, moment by moment.
ghost use Rattle.std.specs.Prelude.{◌≡◌, IfOk, MatchResult};
ghost use Rattle.circuit.specs.Checked.{of};
ghost use Rattle.telling.specs.Knows.{Begins, Suits, Lacks, TellAnswer};

use crate::clocks_told::{begin, follow};
use crate::part::Part;
use circuit::{Circuit, Refusal};
use clocks::Bench;
use std::alloc::{AllocError, Global};
use step::{Clocks, Delays};

// All that is told now: each gate's delays, what each register shows where it may show anything, and its clocks and what
// it takes in the cycle in which it stands.
#[derive(Drop)]
pub struct Teller {
    pub delays: Part<Delays>,
    pub shows: Part<bool>,
    pub clocks: Vec<Clocks>,
}

impl Teller {
    // A teller that knows what is said before moment 0, which is nothing.
    pub fn new(heap: Global, bench: Bench<'_>) -> Result<Teller, AllocError>
        ensures { IfOk result (λ y. of bench.entry.circuit (Begins bench.entry.script.now) y) }
    {
        let none = Delays { one: 0, two: 0 };
        let clocks = begin(heap, bench)?;
        let delays = Part::new(heap, bench.circuit.gate_count(), none)?;
        let shows = Part::new(heap, bench.circuit.register_count(), false)?;
        Ok(Teller {
            delays,
            shows,
            clocks,
        })
    }

    // That there are places for all gates and registers, and a cycle for each register.
    fn suits(&self, circuit: Circuit<'_>, cycles: &[u64]) -> Result<(), Refusal>
        ensures { MatchResult result (λ _. Suits circuit.entry cycles.now self.now) (λ e. Lacks circuit.entry cycles.now self.now e) }
    {
        let n = circuit.register_count();
        if cycles.len() < n || self.shows.places() < n || self.clocks.len() < n {
            return Err(Refusal::NoRoom(n));
        }
        let gates = circuit.gate_count();
        if self.delays.places() < gates {
            return Err(Refusal::NoRoom(gates));
        }
        Ok(())
    }

    // What is told for moment `t` to registers that stand in these cycles. Too few places for the circuit, or too few
    // cycles, are refused, with nothing done.
    pub fn tell(&mut self, bench: Bench<'_>, t: u64, cycles: &[u64]) -> Result<(), Refusal>
        ensures { TellAnswer bench.entry t cycles.now self.old self.new result }
    {
        self.suits(bench.circuit, cycles)?;
        self.delays.tell_delays(bench, t);
        self.shows.tell_shows(bench, t);
        follow(bench, cycles, &mut self.clocks);
        Ok(())
    }
}
