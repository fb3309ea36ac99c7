// What a report claims of its circuit, line by line.
#![tactic(auto)]

mod kinds;
mod numbers;
mod put;
mod read;
mod word;

pub use kinds::{Claim, Sums, Worst};
pub use read::claims_are_read;
