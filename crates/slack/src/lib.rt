// Margins of the registers of a circuit, and the shortest period with which no setup margin is below 0.
#![tactic(auto)]

ghost use Rattle.slack.specs.Margin.{PassedByMargins, MarginIsExact, MarginGrows, PassedWithNeeds};
ghost use Rattle.slack.specs.Period.{OtherPeriod, OneLessIsNot, PassedFromShortest};
ghost use Rattle.slack.specs.Required.{MarginIsBetween};
ghost use Rattle.slack.specs.Word.{VerdictByMargins};

mod endpoint;
mod margin;
mod period;
mod worst;

pub use endpoint::Ends;
pub use margin::{ends, margins, smallest};
pub use period::{frequency, shortest_period};
pub use worst::{Smallest, Worst};

// A machine is passed exactly if it is well formed and no margin is below 0.
pub fn passed_by_margins() -> u8
    ensures { PassedByMargins }
{
    0
}

// A margin is what lies between the time of arrival and the one that is required.
pub fn margin_is_between() -> u8
    ensures { MarginIsBetween }
{
    0
}

// With another setup or hold time a register's sum is right exactly if that is at most the machine's own and the margin.
pub fn margin_is_exact() -> u8
    ensures { MarginIsExact }
{
    0
}

// When the setup or hold time has grown by the margin a register's sum is right, and with one more it is not.
pub fn margin_grows() -> u8
    ensures { MarginGrows }
{
    0
}

// With other setup and hold times a machine is passed exactly if each is at most its own and the smallest margin.
pub fn passed_with_needs() -> u8
    ensures { PassedWithNeeds }
{
    0
}

// Passed, too late and too early are by the margins.
pub fn verdict_by_margins() -> u8
    ensures { VerdictByMargins }
{
    0
}

// With another period arrival times and hold margins are the same, and setup margins change by as much.
pub fn other_period() -> u8
    ensures { OtherPeriod }
{
    0
}

// With one less than the shortest period the setup sum is not right at every register.
pub fn one_less_is_not() -> u8
    ensures { OneLessIsNot }
{
    0
}

// A machine is passed from its shortest period on, where the hold sum is right at every register.
pub fn passed_from_shortest() -> u8
    ensures { PassedFromShortest }
{
    0
}
