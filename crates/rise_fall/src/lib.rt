//! Gates whose delays differ for an input that rises and one that falls: when a board of such gates is passed, and what
//! that promises. Theorems, each the contract of a function.
#![tactic(auto)]

ghost use Rattle.rise_fall.specs.Times.{RiseFallWindow};
ghost use Rattle.rise_fall.specs.Promise.{RiseFallPromise, EitherReading, RiseFallInWindow, RiseFallCanGo};
ghost use Rattle.rise_fall.specs.Paths.{RiseFallLatestIs, RiseFallEarliestIs};
ghost use Rattle.rise_fall.specs.Widest.{MovesWithin, NoWorseThanWidest, WidestPass, EqualBoundsPassMore};
ghost use Rattle.rise_fall.specs.Within.{SetupNarrower, HoldNarrower, RiseFallNarrower};
ghost use Rattle.rise_fall.specs.Within.{TimesSlower, SetupSlower, RiseFallSlower};
ghost use Rattle.rise_fall.specs.Cycles.{RiseFallTwoCycles, RiseFallOneCycle, RiseFallFewerTakes};
ghost use Rattle.rise_fall.specs.Weaker.{OwnBoundsFail, LengthMatters, ZeroIsOne};

/// The window lemma by transition: sources that show their bits while they are stable make every signal do so.
pub fn window() -> u8
    ensures { RiseFallWindow }
{
    0
}

/// After every cycle of every run of a passed board every register holds the reference's bit.
pub fn promise_kept() -> u8
    ensures { RiseFallPromise }
{
    0
}

/// They hold it also where a change at a moment itself counts as the last one.
pub fn either_reading() -> u8
    ensures { EitherReading }
{
    0
}

/// In each cycle every signal of a passed board shows the reference's bit while it is stable.
pub fn in_window() -> u8
    ensures { RiseFallInWindow }
{
    0
}

/// A passed board can go, from any bits, by any delays and any clocks in order within their bounds.
pub fn can_go() -> u8
    ensures { RiseFallCanGo }
{
    0
}

/// A latest time by transition is that of some path, and no path has a later one.
pub fn latest_is() -> u8
    ensures { RiseFallLatestIs }
{
    0
}

/// An earliest time by transition is that of some path, and no path has an earlier one.
pub fn earliest_is() -> u8
    ensures { RiseFallEarliestIs }
{
    0
}

/// What moves by four bounds moves by the two between which they lie.
pub fn moves_within() -> u8
    ensures { MovesWithin }
{
    0
}

/// With four bounds no signal is stable later, or for less, than with the two between which they lie.
pub fn no_worse_than_widest() -> u8
    ensures { NoWorseThanWidest }
{
    0
}

/// What is passed with two bounds is passed with four between them.
pub fn widest_pass() -> u8
    ensures { WidestPass }
{
    0
}

/// Four equal bounds pass some board that is not passed with the two, since times go through a gate's table.
pub fn equal_bounds_pass_more() -> u8
    ensures { EqualBoundsPassMore }
{
    0
}

/// Each setup sum that is right stays so with narrower bounds and a longer period.
pub fn setup_narrower() -> u8
    ensures { SetupNarrower }
{
    0
}

/// Each hold sum that is right stays so with narrower bounds and a longer period.
pub fn hold_narrower() -> u8
    ensures { HoldNarrower }
{
    0
}

/// What is passed is so with narrower bounds and a longer period.
pub fn narrower() -> u8
    ensures { RiseFallNarrower }
{
    0
}

/// With a longer period no latest time grows, counted from the cycle's beginning, and no earliest falls, from its end.
pub fn times_slower() -> u8
    ensures { TimesSlower }
{
    0
}

/// Each setup sum that is right with a period is so with every longer one.
pub fn setup_slower() -> u8
    ensures { SetupSlower }
{
    0
}

/// What is passed is so with every longer period.
pub fn slower() -> u8
    ensures { RiseFallSlower }
{
    0
}

/// Of a board with marks only cycles 3 and 4 have to be looked at.
pub fn two_cycles() -> u8
    ensures { RiseFallTwoCycles }
{
    0
}

/// Of a board whose registers take in every cycle only cycle 0.
pub fn one_cycle() -> u8
    ensures { RiseFallOneCycle }
{
    0
}

/// What is passed is so when registers take in fewer cycles.
pub fn fewer_takes() -> u8
    ensures { RiseFallFewerTakes }
{
    0
}

/// By each transition's own bounds alone a board would be passed that goes wrong.
pub fn own_bounds_fail() -> u8
    ensures { OwnBoundsFail }
{
    0
}

/// By each transition's own bounds alone a buffer would show a bit that it need not show.
pub fn length_matters() -> u8
    ensures { LengthMatters }
{
    0
}

/// A greatest delay of 0 counts as 1 where that of the other transition is not 0.
pub fn zero_is_one() -> u8
    ensures { ZeroIsOne }
{
    0
}
