// What exactly is wrong with numbers that are turned away, with its words.
#![tactic(auto)]

use std::alloc::AllocError;

pub mod bounds;
mod column;
mod wording;

pub use column::{GateColumn, Input, RegisterColumn, TimesColumn};

#[derive(Clone, Copy)]
pub enum Detail {
    // So many numbers of gates.
    GateNumbers(usize),
    // So many numbers of registers.
    RegisterNumbers(usize),
    // So many times.
    TimeNumbers(usize),
    // So many registers.
    Registers(usize),
    // So many gates.
    Gates(usize),
    // What is wrong with this gate.
    Gate(usize, GateDetail),
    // What is wrong with this register.
    Register(usize, RegisterDetail),
    // What is wrong with the times.
    Times(TimesDetail),
}

// A number that is too large, and which of its gate, its register or the times it is.
#[derive(Copy)]
pub struct Large<C> {
    pub column: C,
    pub value: u32,
}

impl<C: Copy> Clone for Large<C> {
    fn clone(&self) -> Result<Self, AllocError> {
        Ok(*self)
    }
}

#[derive(Clone, Copy)]
pub enum GateDetail {
    Large(Large<GateColumn>),
    // An input takes a signal that does not come before the gate.
    NotBefore {
        input: Input,
        signal: u32,
    },
    // The table's number.
    Table(u32),
    // The least and greatest delay of an input.
    Delay {
        input: Input,
        least: u32,
        greatest: u32,
    },
}

#[derive(Clone, Copy)]
pub enum RegisterDetail {
    Large(Large<RegisterColumn>),
    // The signal that it takes.
    Signal(u32),
    // Its early and late time.
    Clock { early: u32, late: u32 },
}

#[derive(Clone, Copy)]
pub enum TimesDetail {
    Large(Large<TimesColumn>),
    // The earliest and latest output time.
    Output { earliest: u32, latest: u32 },
}
