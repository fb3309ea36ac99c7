// What a bench is told: statements, and choices made from a number for what they leave open.
#![tactic(auto)]

pub mod chance;
mod entries;
mod entry;
mod kind;
mod script;

pub use chance::Choice;
pub use entries::Entries;
pub use entry::Entry;
pub use kind::Kind;
pub use script::{Script, may_be_told};
