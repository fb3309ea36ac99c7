// The smallest margins of a circuit.

// The smallest margin of one kind, and the first register that has it.
#[derive(Clone, Copy, PartialEq)]
pub struct Worst {
    pub register: usize,
    pub margin: i64,
}

// The smallest setup margin and the smallest hold margin.
#[derive(Clone, Copy, PartialEq)]
pub struct Smallest {
    pub setup: Worst,
    pub hold: Worst,
}
