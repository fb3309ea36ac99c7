// One moment.
ghost use Rattle.circuit.specs.Checked.{of};
ghost use Rattle.trial.specs.Standing.{Goes};

use crate::room::Room;
use circuit::Refusal;
use clocks::Bench;
use step::Now;

impl Room {
    // One moment, told and gone; refused where the room does not suit the circuit.
    pub(crate) fn go(&mut self, bench: Bench<'_>, t: u64) -> Result<(), Refusal>
        ensures { of bench.entry.circuit (Goes bench.entry.script.now) t self.old self.new result }
    {
        self.teller.tell(bench, t, &self.state.cycles)?;
        let told = Now {
            moment: t,
            delays: &self.teller.delays.values,
            shows: &self.teller.shows.values,
            clocks: &self.teller.clocks,
        };
        self.state.step(bench.circuit, told)
    }
}
