// A detail in words.
use crate::{Detail, GateDetail, Input, Large, RegisterDetail, TimesDetail};
use circuit::{LARGEST, MOST_GATES, MOST_REGISTERS};
use std::fmt;

// A sentence on a number that is wrong: what it is, the number, what is said of it, and the number that it is held against,
// if there is one.
#[derive(Clone, Copy)]
struct Fault(&'static str, u32, &'static str, Option<u32>);

// The largest number that is read of a text: a larger one is read as this one.
const CAP: u32 = u32::MAX;

// As many times are kept of a text that has two lines of them or more.
const TIMES_OF_TWO: usize = 10;

impl fmt::Display for Fault {
    fn fmt<W: fmt::Write>(&self, f: &mut fmt::Formatter<W>) -> fmt::Result {
        let Fault(what, number, said, other) = self;
        let more = if *number == CAP { " or more" } else { "" };
        write!(f, "{what} {number}{more} {said}")?;
        match other {
            Some(other) => write!(f, " {other}"),
            None => Ok(()),
        }
    }
}

impl GateDetail {
    // What is wrong, without the gate.
    fn fault(self) -> Fault {
        match self {
            GateDetail::Large(Large { column, value }) => Fault(
                column.words(),
                value,
                "is above",
                Some(LARGEST),
            ),
            GateDetail::NotBefore { input, signal } => Fault(
                input.words(),
                signal,
                "does not come before it",
                None,
            ),
            GateDetail::Table(table) => Fault("table", table, "is above", Some(15)),
            GateDetail::Delay {
                input,
                least,
                greatest,
            } => {
                let above = match input {
                    Input::First => "of the first input is above its greatest",
                    Input::Second => "of the second input is above its greatest",
                };
                Fault("least delay", least, above, Some(greatest))
            }
        }
    }
}

impl RegisterDetail {
    // What is wrong, without the register.
    fn fault(self) -> Fault {
        match self {
            RegisterDetail::Large(Large { column, value }) => Fault(
                column.words(),
                value,
                "is above",
                Some(LARGEST),
            ),
            RegisterDetail::Signal(signal) => Fault("signal", signal, "is past the circuit", None),
            RegisterDetail::Clock { early, late } => Fault(
                "early time",
                early,
                "is above its late time",
                Some(late),
            ),
        }
    }
}

impl TimesDetail {
    // What is wrong with the times.
    fn fault(self) -> Fault {
        match self {
            TimesDetail::Large(Large { column, value }) => Fault(
                column.words(),
                value,
                "is above",
                Some(LARGEST),
            ),
            TimesDetail::Output { earliest, latest } => Fault(
                "earliest output time",
                earliest,
                "is above the latest",
                Some(latest),
            ),
        }
    }
}

// A count that no circuit has.
fn put_count<W: fmt::Write>(f: &mut fmt::Formatter<W>, n: usize, said: &str) -> fmt::Result {
    write!(f, "{n} {said}")
}

// What is wrong with one of the gates or registers.
fn put_place<W: fmt::Write>(
    f: &mut fmt::Formatter<W>,
    what: &str,
    place: usize,
    fault: Fault,
) -> fmt::Result {
    write!(f, "{what} {place}: {fault}")
}

impl fmt::Display for Detail {
    fn fmt<W: fmt::Write>(&self, f: &mut fmt::Formatter<W>) -> fmt::Result {
        match *self {
            Detail::GateNumbers(n) => put_count(f, n, "numbers are not seven for each gate"),
            Detail::RegisterNumbers(n) => put_count(
                f,
                n,
                "numbers are not three for each register",
            ),
            Detail::TimeNumbers(n) if n >= TIMES_OF_TWO => {
                put_count(f, TIMES_OF_TWO, "times or more are not five")
            }
            Detail::TimeNumbers(n) => put_count(f, n, "times are not five"),
            Detail::Registers(0) => write!(f, "0 registers are not 1 to {MOST_REGISTERS}"),
            Detail::Registers(_) => write!(f, "more than {MOST_REGISTERS} registers"),
            Detail::Gates(_) => write!(f, "more than {MOST_GATES} gates"),
            Detail::Gate(k, detail) => put_place(f, "gate", k, detail.fault()),
            Detail::Register(r, detail) => put_place(f, "register", r, detail.fault()),
            Detail::Times(detail) => detail.fault().fmt(f),
        }
    }
}
