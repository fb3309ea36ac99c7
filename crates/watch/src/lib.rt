// A run beside its drawing.
#![tactic(auto)]

mod prepare;
mod watch;
mod watching;

pub use watch::Watch;
