// One moment of a circuit that is let go: what its registers show and take, and what its gates make of that.
#![tactic(auto)]

mod gates;
mod registers;
mod state;
mod told;

pub use registers::{must_show, settled};
pub use state::State;
pub use told::{Clocks, Delays, Now};
