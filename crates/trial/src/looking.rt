// What a run shows at the last moment that has gone.
ghost use Rattle.std.specs.Prelude.{◌≡◌};
ghost use Rattle.circuit.specs.Checked.{registers_of, signals_of};
ghost use Rattle.simulation.specs.Simulated.{run_waves, shows_anything, takes_anything};
ghost use Rattle.trial.specs.Made.{machine_of, told_to};
ghost use Rattle.trial.specs.Looked.{at_last, LastTold};

use crate::running::Trial;
use circuit::Register;
use step::{Clocks, must_show, settled};

impl Trial<'_> {
    // What signal `k` shows at the last moment that has gone; false before one has, and of a signal that is not there.
    pub fn signal(&self, k: usize) -> bool
        ensures { result ≡ at_last self.now (signals_of self.now.bench.circuit) k (run_waves (machine_of self.now) (told_to self.now) k) }
    {
        self.moment > 0 && self.room.state.past.get(k, self.moment - 1)
    }

    // What register `r` was told for the last moment that has gone, and the cycle in which it stands now.
    fn last_told(&self, r: usize) -> Option<(Clocks, u64)>
        ensures { LastTold self.now r result }
    {
        if self.moment == 0 || r >= self.bench.circuit.register_count() {
            return None;
        }
        Some((self.room.teller.clocks[r], self.room.state.cycles[r]))
    }

    // Whether register `r` may show anything at the last moment that has gone; false before one has, and of a register that
    // is not there.
    pub fn shows_anything(&self, r: usize) -> bool
        ensures { result ≡ at_last self.now (registers_of self.now.bench.circuit) r (shows_anything (machine_of self.now) (told_to self.now) r) }
    {
        let Some((told, cycle)) = self.last_told(r) else {
            return false;
        };
        let (clock, next) = if cycle == told.cycle {
            (told.clock, told.next)
        } else {
            (told.next, told.after)
        };
        !must_show(self.bench.circuit, clock, next, self.moment - 1)
    }

    // Whether register `r` came to a cycle at the last moment that has gone in which it may hold anything, as its signal did
    // not keep still; false before a moment has gone, and of a register that is not there.
    pub fn takes_anything(&self, r: usize) -> bool
        ensures { result ≡ at_last self.now (registers_of self.now.bench.circuit) r (takes_anything (machine_of self.now) (told_to self.now) r) }
    {
        let Some((told, cycle)) = self.last_told(r) else {
            return false;
        };
        if cycle == told.cycle {
            return false;
        }
        let circuit = self.bench.circuit;
        let signal = Register::from(circuit.registers()[r]).signal as usize;
        settled(&self.room.state.past, circuit, signal, told.next).is_none()
    }
}
