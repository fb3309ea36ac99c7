// The memory of a bench.
use step::State;
use telling::Teller;

// How far the run has come, what is told, and the latest that a clock comes in its cycle.
#[derive(Drop)]
pub struct Room {
    pub state: State,
    pub teller: Teller,
    pub(crate) latest: u32,
}
