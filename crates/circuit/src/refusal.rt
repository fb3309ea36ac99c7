// Why numbers that are lent are turned away.
use std::fmt;

#[derive(Clone, Copy, PartialEq)]
pub enum Refusal {
    // The gates' numbers are not seven for each gate.
    GateNumbers,
    // The registers' numbers are not three for each register.
    RegisterNumbers,
    // The times are not five.
    TimeNumbers,
    // No register, or more than 1,024.
    RegisterCount,
    // More than 16,384 gates.
    GateCount,
    // The number at this index, through gates, registers and times, is above 1,000,000.
    TooLarge(usize),
    // This gate has an input that is not below it, or a table above 15.
    BadGate(usize),
    // This gate has a least delay above its greatest.
    BadDelay(usize),
    // This register takes a signal past the circuit, or its early time is above its late one.
    BadRegister(usize),
    // The earliest output time is above the latest.
    BadOutput,
    // This signal, which was asked for, is past the circuit.
    NoSignal(usize),
    // Lent room is too short: it needs this length.
    NoRoom(usize),
    // On the bench, a delay or a clock on this line is out of its bounds.
    OutOfBounds(usize),
    // On the bench, which makes no run with it: the period is 0.
    NoPeriod,
    // On the bench, which makes no run with them: setup and latest output time are both 0.
    NoMoment,
}

// By its number and its place.
impl fmt::Debug for Refusal {
    fn fmt<W: fmt::Write>(&self, f: &mut fmt::Formatter<W>) -> fmt::Result {
        fmt::Debug::fmt(&(self.number(), self.place()), f)
    }
}
