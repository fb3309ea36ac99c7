// What is found of one register.
use std::fmt;

/// What is found of a register for its setup sum or its hold sum. `arrival` and `limit` are the two sums that are
/// compared: latest time and setup, period and early time; or earliest time, late time and hold. `margin` is how much
/// lies between them, or below 0 what is missing, all in picoseconds. `path` is how many numbers of the lent room the
/// path to the register takes.
#[derive(Clone, Copy)]
pub struct Endpoint {
    pub arrival: u64,
    pub limit: u64,
    pub margin: i64,
    pub path: usize,
}

/// Whether a register meets its times.
#[derive(Clone, Copy, PartialEq)]
pub enum Word {
    /// Its signal comes in time, and stays long enough.
    Met,
    /// Its signal comes too late.
    TooLate,
    /// Its signal comes in time, but changes too early.
    TooEarly,
}

/// All that is found of a register.
#[derive(Clone, Copy)]
pub struct RegisterReport {
    pub word: Word,
    pub setup: Endpoint,
    pub hold: Endpoint,
}

/// Why nothing is found of a register.
#[derive(Clone, Copy, Debug)]
pub enum RegisterError {
    /// The circuit has no register of this number.
    NoRegister(usize),
}

impl fmt::Display for RegisterError {
    fn fmt<W: fmt::Write>(&self, f: &mut fmt::Formatter<W>) -> fmt::Result {
        match self {
            RegisterError::NoRegister(register) => write!(f, "there is no register {register}"),
        }
    }
}
