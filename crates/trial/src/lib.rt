// A circuit on the bench: gone through time, cycle by cycle, with what a script tells.
#![tactic(auto)]

mod count;
mod going;
mod looking;
mod preparing;
mod room;
mod running;
mod stop;
mod trying;

pub use preparing::prepare;
pub use room::Room;
pub use running::Trial;
pub use stop::Stop;
