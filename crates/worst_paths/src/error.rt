// Why no paths are listed.
ghost use Rattle.std.specs.Prelude.{◌≡◌};
ghost use Rattle.worst_paths.specs.declared.error.WorstError.TheVariants.{Memory};
ghost use Rattle.worst_paths.specs.Refused.{refusal_of};

use std::alloc::AllocError;

/// The number, in the list of refusals, of a number of paths that are not listed.
pub const REFUSAL: u32 = 12;

/// Why no paths are listed.
#[derive(Clone, Copy, PartialEq)]
pub enum WorstError {
    /// So many paths are not listed: none, or more than 100.
    OutOfRange(usize),
    /// There was no memory.
    Memory,
}

impl WorstError {
    /// Its number in the list of refusals, and its place, the number of paths asked for; None for want of memory.
    pub fn refusal(self) -> Option<(u32, usize)>
        ensures { result ≡ refusal_of self }
    {
        match self {
            WorstError::OutOfRange(k) => Some((REFUSAL, k)),
            WorstError::Memory => None,
        }
    }
}

impl From<AllocError> for WorstError {
    ghost from_gives = { λ _ e. e ≡ Memory };

    fn from(_: AllocError) -> WorstError {
        WorstError::Memory
    }
}
