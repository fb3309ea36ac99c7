//! Clocked circuits whose registers need not take in every cycle, with inputs from outside: what passing promises.
#![tactic(auto)]

ghost use Rattle.board.specs.Promise.{Promise, InWindow, FewerTakes, CountedToFirst, Narrower, Slower};
ghost use Rattle.board.specs.Promise.{BaseIsBoard, CanGo};
ghost use Rattle.board.specs.Marks.{TwoCycles, OneCycle, TwoPeriods};
ghost use Rattle.board.specs.Capture.{PassedByCapture, CaptureTimes, LongerPeriod};
ghost use Rattle.board.specs.Capture.{SecondIsOdd, UnmarkedIsPlain};
ghost use Rattle.board.specs.FirstCycle.{FirstCycleMatters};
ghost use Rattle.promise.specs.Promise as base;

mod mark;

pub use mark::Mark;

/// After every cycle of every run of a passed board every register holds the reference's bit.
pub fn promise_kept() -> u8
    ensures { Promise }
{
    0
}

/// In each cycle every signal of a passed board shows the reference's bit in its window.
pub fn in_window() -> u8
    ensures { InWindow }
{
    0
}

/// What is passed is so when registers take in fewer cycles.
pub fn fewer_takes() -> u8
    ensures { FewerTakes }
{
    0
}

/// What is passed with registers that take in every cycle is so with any schedule.
pub fn counted_to_first() -> u8
    ensures { CountedToFirst }
{
    0
}

/// What is passed is so with bounds within the old ones and a period that is no shorter.
pub fn narrower() -> u8
    ensures { Narrower }
{
    0
}

/// What is passed is so with every longer period.
pub fn slower() -> u8
    ensures { Slower }
{
    0
}

/// A machine is passed exactly if it is as a board, and has just the runs, the reference and the windows of that board.
pub fn base_is_board() -> u8
    ensures { BaseIsBoard }
{
    0
}

/// The promise of machines follows from that of boards.
pub fn base_promise() -> u8
    ensures { base.Promise }
{
    0
}

/// A board with marks is passed if both sums are right in cycles 3 and 4.
pub fn two_cycles() -> u8
    ensures { TwoCycles }
{
    0
}

/// A board whose registers take in every cycle is passed if both sums are right in cycle 0.
pub fn one_cycle() -> u8
    ensures { OneCycle }
{
    0
}

/// A passed board can go: there is a run from any bits, with any bits from outside, by any delays and any clocks in
/// order within their bounds.
pub fn can_go() -> u8
    ensures { CanGo }
{
    0
}

/// Registers that all take every second cycle have two periods.
pub fn two_periods() -> u8
    ensures { TwoPeriods }
{
    0
}

/// A board with marks is passed exactly if two sums are right at each register, over arrival times for its own mark.
pub fn passed_by_capture() -> u8
    ensures { PassedByCapture }
{
    0
}

/// The arrival times in these sums are those of a cycle, or of an unmarked register the worse of two cycles in a row.
pub fn capture_times() -> u8
    ensures { CaptureTimes }
{
    0
}

/// With a period that is longer by d setup slack grows by d at an unmarked register, and by d to twice d at another.
pub fn longer_period() -> u8
    ensures { LongerPeriod }
{
    0
}

/// Registers marked `Odd` and `Second` are judged by one set of arrival times.
pub fn second_is_odd() -> u8
    ensures { SecondIsOdd }
{
    0
}

/// The arrival times at an unmarked register have no marks in them, and where there are no inputs are a machine's.
pub fn unmarked_is_plain() -> u8
    ensures { UnmarkedIsPlain }
{
    0
}

/// A register that takes at the end of cycle 0 and then at the ends of all even cycles can go wrong, though both sums
/// are right in every cycle but cycle 0.
pub fn first_cycle_matters() -> u8
    ensures { FirstCycleMatters }
{
    0
}
