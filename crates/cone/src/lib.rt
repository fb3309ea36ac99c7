//! What a register sees of a circuit: the fan-in cone of the signal that it takes, and nothing else.
#![tactic(auto)]

ghost use Rattle.cone.specs.Cone.{ConeIsClosed, ConeTimes, ConePaths, ConeToldPaths, SameConeIsMapped, OthersKeepTimes};
ghost use Rattle.cone.specs.Register.{ConeMargins, SameConeMargins};

mod endpoint;
mod marks;
mod report;
mod sums;
mod times;
mod walk;

pub use endpoint::{Endpoint, RegisterError, RegisterReport, Word};
pub use report::register_report;

/// A signal is in its own fan-in cone, and so are both inputs of each gate in it.
pub fn cone_is_closed() -> u8
    ensures { ConeIsClosed }
{
    0
}

/// Signals in a fan-in cone have the times of the signals that a map of the cone takes them to.
pub fn cone_times() -> u8
    ensures { ConeTimes }
{
    0
}

/// The paths of a fan-in cone are mapped to paths with the same delays, and no other path leads to the mapped signals.
pub fn cone_paths() -> u8
    ensures { ConePaths }
{
    0
}

/// The path by which a signal's time is reached is mapped to the path by which the mapped signal's is.
pub fn cone_told_paths() -> u8
    ensures { ConeToldPaths }
{
    0
}

/// Circuits with the same gates in a signal's fan-in cone, under the same numbers, map each signal of it to itself.
pub fn same_cone_is_mapped() -> u8
    ensures { SameConeIsMapped }
{
    0
}

/// A register's margins are those of each register that sees the same: equal times, and a fan-in cone that is mapped to
/// its own.
pub fn cone_margins() -> u8
    ensures { ConeMargins }
{
    0
}

/// Circuits that are the same on all paths to a register have the same margins, times and paths there.
pub fn same_cone_margins() -> u8
    ensures { SameConeMargins }
{
    0
}

/// Signals that no path leads to from a changed gate keep their times and paths.
pub fn others_keep_times() -> u8
    ensures { OthersKeepTimes }
{
    0
}
