// The bits of signals at the last moments.
#![tactic(auto)]

mod history;
mod keeping;

pub use history::History;
