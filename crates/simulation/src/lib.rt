// A circuit gone through time, moment by moment: the run that it makes from what it is told.
#![tactic(auto)]

ghost use Rattle.simulation.specs.Theorems.{SimulatedIsRun, SimulatedAsDrawn, ShowsItsBit, TakesItsSignal};

// A simulated run is one of the runs that passing speaks of, of a machine that is passed or not.
pub fn simulated_is_run() -> u8
    ensures { SimulatedIsRun }
{
    0
}

// A passed machine, whatever it is told within bounds, holds the drawing's bits.
pub fn simulated_as_drawn() -> u8
    ensures { SimulatedAsDrawn }
{
    0
}

// A register shows its bit at every moment at which it may not show anything, and at the others what is told.
pub fn shows_its_bit() -> u8
    ensures { ShowsItsBit }
{
    0
}

// A register that comes to a cycle in which it may hold anything holds what is told, and else the bit at which its signal
// kept still.
pub fn takes_its_signal() -> u8
    ensures { TakesItsSignal }
{
    0
}
