// What is told of one moment.

// How long before a moment a gate sees its first input, and its second.
#[derive(Clone, Copy)]
pub struct Delays {
    pub one: u32,
    pub two: u32,
}

// What a register is told while it stands in cycle `cycle`: the moments of its clock in that cycle, in the next, and in
// the one after that, and what it takes at its next clock where it may take anything.
#[derive(Clone, Copy)]
pub struct Clocks {
    pub cycle: u64,
    pub clock: u64,
    pub next: u64,
    pub after: u64,
    pub take: bool,
}

// What is told for one moment to a circuit whose registers stand each in a cycle of its own.
#[derive(Clone, Copy)]
pub struct Now<'a> {
    pub moment: u64,
    // Each gate's delays.
    pub delays: &'a [Delays],
    // For each register what it shows where it may show anything.
    pub shows: &'a [bool],
    // Each register's clocks, and what it takes.
    pub clocks: &'a [Clocks],
}
