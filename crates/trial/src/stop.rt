// Why nothing is put on the bench.
ghost use Rattle.std.specs.Prelude.{◌≡◌};
ghost use Rattle.trial.specs.declared.stop.Stop.TheVariants.{Memory, Refused};

use circuit::Refusal;
use std::alloc::AllocError;

#[derive(Clone, Copy)]
pub enum Stop {
    // A circuit or a script is turned away.
    Refused(Refusal),
    // Memory is short.
    Memory,
}

impl From<AllocError> for Stop {
    ghost from_gives = { λ _ e. e ≡ Memory };

    fn from(_: AllocError) -> Stop {
        Stop::Memory
    }
}

impl From<Refusal> for Stop {
    ghost from_gives = { λ r e. e ≡ Refused r };

    fn from(r: Refusal) -> Stop {
        Stop::Refused(r)
    }
}
