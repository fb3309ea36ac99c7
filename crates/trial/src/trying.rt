// A run made moment by moment, and cycle by cycle.
ghost use Rattle.std.specs.Prelude.{◌≤◌, false, length, MatchResult};
ghost use Rattle.circuit.specs.Checked.{of};
ghost use Rattle.circuit.specs.Filled.{Filled};
ghost use Rattle.history.specs.Kept.{kept};
ghost use Rattle.trial.specs.Standing.{Standing};
ghost use Rattle.trial.specs.Stopped.{Stopped};
ghost use Rattle.trial.specs.Made.{Begun, BegunIn, Stepped, CycleAnswer};

use crate::preparing::prepare;
use crate::room::Room;
use crate::running::Trial;
use crate::stop::Stop;
use circuit::Refusal;
use clocks::Bench;
use history::History;
use std::alloc::Global;

// The bits of a cycle.
fn copy_bits(from: &History, n: usize, cycle: u64, bits: &mut [bool])
    requires { n ≤ length bits.old }
    ensures { Filled false n (λ r. kept from.now r cycle) bits.old bits.new }
{
    for (r, bit) in bits[..n].iter_mut().enumerate() {
        *bit = from.get(r, cycle);
    }
}

impl<'a> Trial<'a> {
    // A run before its first moment, in a room that was prepared for it.
    pub fn new(bench: Bench<'a>, room: Room) -> Trial<'a>
        requires { of bench.circuit (Standing bench.script.now) 0 room }
        ensures { BegunIn bench.entry room result }
    {
        let late = u64::from(bench.circuit.output_late()) + u64::from(room.latest);
        Trial {
            bench,
            room,
            moment: 0,
            done: 0,
            ends: u64::from(bench.circuit.period()) + late + 1,
        }
    }

    // A run before its first moment, in a room of its own, where one is possible.
    pub fn prepare(heap: Global, bench: Bench<'a>) -> Result<Trial<'a>, Stop>
        ensures { MatchResult result
            (λ y. Begun bench.entry y)
            (λ e. of bench.entry.circuit (Stopped bench.entry.script.now) e) }
    {
        let room = prepare(heap, bench)?;
        Ok(Trial::new(bench, room))
    }

    // One moment more, true; or false where the next cycle is done. A flag, as that is no error: `cycle` goes on while it is
    // true.
    pub fn step(&mut self) -> bool
        ensures { Stepped self.old self.new result }
    {
        if self.moment == self.ends {
            return false;
        }
        let went = self.room.go(self.bench, self.moment).is_ok();
        if went {
            self.moment += 1;
        }
        went
    }

    // Goes on to the end of the next cycle, and gives the registers' bits of it; false, with nothing changed, where all
    // cycles are done that the script asks for, which is no error. Room for too few bits is refused.
    pub fn cycle(&mut self, bits: &mut [bool]) -> Result<bool, Refusal>
        ensures { CycleAnswer self.old self.new bits.old bits.new result }
    {
        let n = self.bench.circuit.register_count();
        if bits.len() < n {
            return Err(Refusal::NoRoom(n));
        }
        if self.done >= u64::from(self.bench.script.cycles) {
            return Ok(false);
        }
        while self.step() {}
        copy_bits(&self.room.state.bits, n, self.done + 1, bits);
        self.ends += u64::from(self.bench.circuit.period());
        self.done += 1;
        Ok(true)
    }
}
