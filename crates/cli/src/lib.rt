//! The command lines of the programs `pass` and `bench`: what the words of one ask for, or what is to be said of it.
#![tactic(auto)]

mod bench;
mod option;
mod pass;
mod told;

pub use bench::{BenchOptions, bench_options};
pub use pass::{Form, Layout, PassOptions, pass_options};
pub use told::{Asked, Told};
