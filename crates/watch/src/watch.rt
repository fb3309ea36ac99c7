// A run, and what its drawing says.
ghost use Rattle.std.specs.Prelude.{◌≡◌, ℕ, ◌<◌, length, vec_items};
ghost use Rattle.circuit.specs.Checked.{registers_of, signals_of};
ghost use Rattle.drawing.specs.Lent.{bit_at};
ghost use Rattle.promise.specs.Machine.{drawing};
ghost use Rattle.simulation.specs.Simulated.{run_bits};
ghost use Rattle.trial.specs.Made.{machine_of, told_to};

use trial::Trial;

// A run with the bits that its registers hold in the last cycle that is done, and those that they would hold if nothing
// took any time; and room to follow the drawing.
#[derive(Drop)]
pub struct Watch<'a> {
    pub(crate) trial: Trial<'a>,
    pub(crate) held: Vec<bool>,
    pub(crate) drawn: Vec<bool>,
    pub(crate) signals: Vec<bool>,
    ghost held_size: { length (vec_items held) ≡ registers_of trial.bench.circuit },
    ghost drawn_size: { length (vec_items drawn) ≡ registers_of trial.bench.circuit },
    ghost signals_size: { length (vec_items signals) ≡ signals_of trial.bench.circuit },
    ghost as_run: { (q : ℕ) → q < registers_of trial.bench.circuit → bit_at (vec_items held) q ≡ run_bits (machine_of trial) (told_to trial) trial.done q },
    ghost as_drawn: { (q : ℕ) → q < registers_of trial.bench.circuit → bit_at (vec_items drawn) q ≡ drawing (machine_of trial) (told_to trial).start trial.done q },
}
