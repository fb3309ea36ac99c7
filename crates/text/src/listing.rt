// A circuit as it is read line by line, with the lines on which it stands.
use crate::draft::Draft;

/// The numbers of the lines of a circuit's gates, registers and times, each in order.
#[derive(Drop)]
pub struct Places {
    pub gates: Vec<usize>,
    pub registers: Vec<usize>,
    pub times: Vec<usize>,
}

/// A circuit that was read, with the lines on which it stands.
#[derive(Drop)]
pub struct Listing {
    pub draft: Draft,
    pub places: Places,
}
