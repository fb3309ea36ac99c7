// Latest and earliest arrival times of the signals of a circuit.
#![tactic(auto)]

ghost use Rattle.arrival.specs.Arrival.{Monotone, Shifts, Agrees};
ghost use Rattle.arrival.specs.Window.{Window};

mod edge;
mod filling;
mod timed;
mod times;

pub use edge::Edge;
pub use filling::{FEW_SIGNALS, LARGEST_SOURCE, MOST_SIGNALS, fill, fill_from_registers};
pub use timed::Arrivals;
pub use times::Times;

// The window lemma.
pub fn window() -> u8
    ensures { Window }
{
    0
}

// With bounds within the old ones latest times are no later and earliest times no earlier.
pub fn monotone() -> u8
    ensures { Monotone }
{
    0
}

// Sources that are later by one number make every signal later by it.
pub fn shifts() -> u8
    ensures { Shifts }
{
    0
}

// Times depend on those of the sources alone.
pub fn agrees() -> u8
    ensures { Agrees }
{
    0
}
