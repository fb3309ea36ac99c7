// What is told moment by moment.
#![tactic(auto)]

mod clocks_told;
mod part;
mod said;
mod teller;

pub use part::Part;
pub use teller::Teller;
