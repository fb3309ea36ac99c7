//! How near a circuit is to its limit: its smallest setup margin as a part of the period.
#![tactic(auto)]

mod ratio;
mod words;

pub use ratio::setup_ratio;
pub use words::in_words;
