// What is told to a run out of its bounds, with its words.
use crate::Input;
use std::fmt;

// A number that is told, with its bounds.
#[derive(Clone, Copy)]
pub struct Bounded {
    pub told: u32,
    pub least: u32,
    pub greatest: u32,
}

// A delay or a clock that is out of its bounds.
#[derive(Clone, Copy)]
pub enum Misfit {
    // A delay of a signal that is no gate's: those of gates begin at `first`, and end before `end`.
    NoGate {
        first: usize,
        end: usize,
    },
    // The delay of an input of the gate with this signal.
    Delay {
        signal: usize,
        input: Input,
        bounded: Bounded,
    },
    // A clock of a register that is not there: there are so many.
    NoRegister(usize),
    // When the clock comes to this register, in its cycle.
    Clock {
        register: usize,
        bounded: Bounded,
    },
}

// What is told of a gate or a register out of its bounds.
fn put_told<W: fmt::Write>(
    f: &mut fmt::Formatter<W>,
    what: &str,
    place: usize,
    told: &str,
    bounded: Bounded,
) -> fmt::Result {
    let Bounded {
        told: number,
        least,
        greatest,
    } = bounded;
    write!(
        f,
        "{what} {place}: {told} {number} is not within {least} to {greatest}"
    )
}

impl fmt::Display for Misfit {
    fn fmt<W: fmt::Write>(&self, f: &mut fmt::Formatter<W>) -> fmt::Result {
        match *self {
            Misfit::NoGate { first, end } => write!(
                f,
                "a delay of a signal that is no gate's: the gates' signals are from {first} to before {end}"
            ),
            Misfit::Delay {
                signal,
                input,
                bounded,
            } => {
                let told = match input {
                    Input::First => "delay of the first input",
                    Input::Second => "delay of the second input",
                };
                put_told(f, "gate", signal, told, bounded)
            }
            Misfit::NoRegister(n) => write!(f, "a clock of a register past the last, of {n}"),
            Misfit::Clock { register, bounded } => put_told(
                f, "register", register, "clock", bounded,
            ),
        }
    }
}
