// The three times of a register.

// When the signal that a register takes comes, when it has to, and how much is to spare.
#[derive(Clone, Copy)]
pub struct Ends {
    pub arrival: i64,
    pub required: i64,
    pub margin: i64,
}
