// A path that ends at a register.

/// An input pin of a gate, which is counted among the gates: its second input, or its first.
#[derive(Clone, Copy)]
pub struct Pin {
    pub gate: usize,
    pub second: bool,
}

/// A path from a register's output, its source, to the signal that a register takes.
#[derive(Drop)]
pub struct TimingPath {
    /// The register at which it ends.
    pub register: usize,
    /// The register at whose output it begins.
    pub source: usize,
    /// The pins by which it goes, from the source on.
    pub pins: Vec<Pin>,
    /// In picoseconds: required less arrival time, or for the earliest times arrival less required. Below 0 it is a
    /// violation.
    pub slack: i64,
    /// In picoseconds: the launch time of the source, and the delays along the path.
    pub arrival: u64,
    /// In picoseconds: the time by which, or for the earliest times from which on, the register needs its signal.
    pub required: i64,
}
