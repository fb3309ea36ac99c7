// What was found, and the status that goes with it.
use std::process::ExitCode;

// The status where something could not be done.
pub(crate) const TROUBLE: u8 = 2;

// From best to worst.
#[derive(Clone, Copy)]
pub(crate) enum Outcome {
    // Every register was as drawn after every cycle.
    AsDrawn,
    // Some register was not.
    NotAsDrawn,
    // The circuit, or what is told to it, is turned away, at least in one run.
    TurnedAway,
    // A file cannot be used.
    Unsound,
}

impl Outcome {
    pub(crate) fn status(self, exit_zero: bool) -> ExitCode {
        match self {
            Outcome::AsDrawn => ExitCode::SUCCESS,
            Outcome::NotAsDrawn | Outcome::TurnedAway if exit_zero => ExitCode::SUCCESS,
            Outcome::NotAsDrawn | Outcome::TurnedAway => ExitCode::FAILURE,
            Outcome::Unsound => ExitCode::from(TROUBLE),
        }
    }
}
