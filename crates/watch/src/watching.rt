// A run gone on with, beside its drawing.
ghost use Rattle.std.specs.Prelude.{◌≡◌, min, None, length, vec_items};
ghost use Rattle.circuit.specs.Checked.{registers_of};
ghost use Rattle.drawing.specs.Lent.{bit_at};
ghost use Rattle.promise.specs.Machine.{Passed, drawing};
ghost use Rattle.simulation.specs.Simulated.{run_bits};
ghost use Rattle.trial.specs.Made.{machine_of, told_to};
ghost use Rattle.watch.specs.Bits.{BitsOf, FirstDifference};
ghost use Rattle.watch.specs.Watched.{WentOn, CycleWatched};

use crate::watch::Watch;
use drawing::cycle;
use trial::Trial;

// The first place at which bits differ.
fn first_other(held: &[bool], drawn: &[bool]) -> Option<usize>
    ensures { FirstDifference (min (length held.now) (length drawn.now)) (bit_at held.now) (bit_at drawn.now) result }
{
    for q in 0..held.len().min(drawn.len()) {
        if held[q] != drawn[q] {
            return Some(q);
        }
    }
    None
}

impl<'a> Watch<'a> {
    // The run.
    pub fn trial(&self) -> &Trial<'a>
        ensures { result.now ≡ self.now.trial }
    {
        &self.trial
    }

    // The bits that the registers hold in the last cycle that is done, in the run that the script tells.
    pub fn held(&self) -> &[bool]
        ensures is { result.now ≡ vec_items self.now.held }
        ensures bits { BitsOf (registers_of self.now.trial.bench.circuit) (run_bits (machine_of self.now.trial) (told_to self.now.trial) self.now.trial.done) result.now }
    {
        self.held.as_slice()
    }

    // The bits that they would hold in it if nothing took any time.
    pub fn drawn(&self) -> &[bool]
        ensures is { result.now ≡ vec_items self.now.drawn }
        ensures bits { BitsOf (registers_of self.now.trial.bench.circuit) (drawing (machine_of self.now.trial) (told_to self.now.trial).start self.now.trial.done) result.now }
    {
        self.drawn.as_slice()
    }

    // The first register that does not hold what the drawing says; none of a passed circuit.
    pub fn first_difference(&self) -> Option<usize>
        ensures first { FirstDifference (registers_of self.now.trial.bench.circuit) (run_bits (machine_of self.now.trial) (told_to self.now.trial) self.now.trial.done) (drawing (machine_of self.now.trial) (told_to self.now.trial).start self.now.trial.done) result }
        ensures passed { Passed (machine_of self.now.trial) → result ≡ None }
    {
        first_other(&self.held, &self.drawn)
    }

    // One moment more, true; or false where the next cycle is done, as `Trial::step`.
    pub fn step(&mut self) -> bool
        ensures { WentOn self.old self.new result }
    {
        self.trial.step()
    }

    // Goes on to the end of the next cycle, in the run and in the drawing, true; or false, with nothing changed, where all
    // cycles are done that the script asks for.
    pub fn cycle(&mut self) -> bool
        ensures { CycleWatched self.old self.new result }
    {
        let Ok(true) = self.trial.cycle(&mut self.held) else {
            return false;
        };
        let circuit = self.trial.bench().circuit;
        cycle(circuit, &mut self.drawn, &mut self.signals).is_ok()
    }
}
