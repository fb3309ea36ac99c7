//! The worst paths of a circuit, the smallest slack first, and the figures of its registers' slacks.
#![tactic(auto)]

ghost use Rattle.worst_paths.specs.Figures.{PassedByFigures, TotalOfNone};
ghost use Rattle.worst_paths.specs.WorstPaths.{OrderIsTotal, OneList, EachOnce, PrecedesIsAhead};
ghost use Rattle.worst_paths.specs.WorstPaths.{FirstIsWorst, FirstAtRegister, PassedByPaths};

mod entry;
mod error;
mod figures;
mod listing;
mod merging;
mod offer;
mod rows;
mod timing_path;
mod tracing;

pub use error::{REFUSAL, WorstError};
pub use figures::{Figures, figures_of};
pub use listing::{MOST_PATHS, worst};
pub use timing_path::{Pin, TimingPath};

/// Of two paths one comes first.
pub fn order_is_total() -> u8
    ensures { OrderIsTotal }
{
    0
}

/// There is just one list of the worst paths.
pub fn one_list() -> u8
    ensures { OneList }
{
    0
}

/// No path stands in it twice.
pub fn each_once() -> u8
    ensures { EachOnce }
{
    0
}

/// Of two paths to one signal the order puts first the one that crate `path` puts ahead.
pub fn precedes_is_ahead() -> u8
    ensures { PrecedesIsAhead }
{
    0
}

/// The first path ends at the register with the smallest margin, has that margin as its slack, and is the path that
/// crate `path` writes of that register's signal.
pub fn first_is_worst() -> u8
    ensures { FirstIsWorst }
{
    0
}

/// Of the paths that end at one register the first is the path that crate `path` writes of its signal, and its slack is
/// the register's margin.
pub fn first_at_register() -> u8
    ensures { FirstAtRegister }
{
    0
}

/// A machine is passed exactly if neither kind's first path has a slack below 0.
pub fn passed_by_paths() -> u8
    ensures { PassedByPaths }
{
    0
}

/// A machine that is well formed is passed exactly if it has no violation of either kind.
pub fn passed_by_figures() -> u8
    ensures { PassedByFigures }
{
    0
}

/// The total negative slack is 0 exactly if there is no violation.
pub fn total_of_none() -> u8
    ensures { TotalOfNone }
{
    0
}
