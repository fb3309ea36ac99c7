// A run that is being made.
ghost use Rattle.std.specs.Prelude.{◌≡◌, ◌^◌, ◌<◌, ◌≤◌};
ghost use Rattle.circuit.specs.Checked.{of};
ghost use Rattle.trial.specs.Standing.{Standing, end_of};

use crate::room::Room;
use clocks::Bench;

// A circuit with a script and its room, at a moment, with so many cycles done, and the moment at which the next one is.
// What the room holds is that of the run which the script tells.
#[derive(Drop)]
pub struct Trial<'a> {
    pub(crate) bench: Bench<'a>,
    pub(crate) room: Room,
    pub(crate) moment: u64,
    pub(crate) done: u64,
    pub(crate) ends: u64,
    ghost standing: { ∥ of bench.circuit (Standing bench.script.now) moment room ∥₁ },
    ghost few: { done ≤ bench.script.now.cycles },
    ghost within: { moment ≤ ends },
    ghost small: { ends < 2 ^ 60 },
    ghost end: { ends ≡ end_of bench.circuit.times.now room.latest done },
}
