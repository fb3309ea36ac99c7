// What is found of a clocked circuit.

// A register whose input comes too late or changes too early: the two sums that are not in order, and how many numbers
// of the lent room its path takes.
#[derive(Clone, Copy)]
pub struct Miss {
    pub register: usize,
    pub arrival: u64,
    pub limit: u64,
    pub path: usize,
}

#[derive(Clone, Copy)]
pub enum Verdict {
    Passed,
    // The first register whose input comes too late.
    TooLate(Miss),
    // The first register whose input changes too early, where none comes too late.
    TooEarly(Miss),
}
