// The claims of a report.

// The two sums of a register that is named: of the setup sum its latest time and setup, then its period and early time; of
// the hold sum its earliest time, then its late time and hold.
#[derive(Clone, Copy, PartialEq)]
pub struct Sums {
    pub register: i64,
    pub arrival: i64,
    pub limit: i64,
}

// A register, and its margin.
#[derive(Clone, Copy, PartialEq)]
pub struct Worst {
    pub register: i64,
    pub margin: i64,
}

// One line of what is found of a circuit. All numbers are signed, as margins can be below 0 and latest times past 2^32.
#[derive(Clone, Copy, PartialEq)]
pub enum Claim {
    // The word: no register's input comes too late or changes too early.
    Passed,
    // The word: the first register whose input comes too late.
    TooLate(Sums),
    // The word: the first register whose input changes too early.
    TooEarly(Sums),
    // The register's signal where the path to the register that the word names begins.
    From(i64),
    // A gate's signal on this path, and the input, 1 or 2, by which the path comes in.
    Through { signal: i64, input: i64 },
    // The margins of a register, in the order of registers.
    Margins { setup: i64, hold: i64 },
    // The smallest margins, each with the first register that has it.
    Smallest { setup: Worst, hold: Worst },
    // The shortest period with which no input comes too late.
    Period(i64),
}
