/// In which cycles a register takes its signal, at their ends. In the others it keeps its bit.
#[derive(Clone, Copy, PartialEq)]
pub enum Mark {
    /// At the end of every cycle.
    Every,
    /// At the ends of cycles 1, 3, 5 and so on.
    Odd,
    /// At the ends of cycles 2, 4, 6 and so on.
    Even,
    /// At the ends of cycles 1, 3, 5 and so on, by a clock of its own that has twice the period.
    Second,
}
