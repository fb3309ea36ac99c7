// An entry of a row.

/// One of the first paths to a signal: its time, the input (0 or 1) of the signal's gate by which it comes, and its
/// rank among the paths there. Of the paths that end at registers: the time as it compares between registers, the
/// register, and the rank among the paths to the register's signal.
#[derive(Clone, Copy)]
pub(crate) struct Entry {
    pub(crate) time: u64,
    pub(crate) by: u32,
    pub(crate) rank: u32,
}
