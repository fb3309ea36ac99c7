// A step of a path.

// A gate on a path: its signal and its table, the input that the path comes in by, the delay there, and the time of the
// signal.
#[derive(Clone, Copy)]
pub struct Step {
    pub signal: usize,
    pub table: u32,
    pub second: bool,
    pub delay: u32,
    pub time: u64,
}
