// Gates, tables and clocked circuits as lent numbers, looked at before anything is computed from them.
#![tactic(auto)]

mod checks;
mod circuit;
mod gate;
mod listed;
mod numbers;
mod parts;
mod refusal;
mod register;
mod rows;
pub mod table;

pub use checks::{LARGEST, MOST_GATES, MOST_REGISTERS, look};
pub use circuit::Circuit;
pub use gate::Gate;
pub use numbers::Numbers;
pub use refusal::Refusal;
pub use register::Register;
