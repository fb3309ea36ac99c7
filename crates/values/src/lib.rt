//! Passing by values: a gate with a controlling value at one input need not wait for the other, so paths that no bits
//! of the registers sensitize do not count. Theorems over times in whole moments, each the contract of a function.
#![tactic(auto)]

ghost use Rattle.values.specs.Bounds.{BoundsHold, BoundsAreExact, BlockedIsNotSensitized, OpenIsSensitized};
ghost use Rattle.values.specs.ByValues.{TakesItsSignal, PromiseByValues, InWindowByValues, PassesNoLess, PassesMore, SlowerByValues, PromiseAtBothEnds};
ghost use Rattle.values.specs.Exceptions.{TwoExceptionsFail, OneExceptionFails, PassedWithLonger};
ghost use Rattle.values.specs.FalsePath.{SensitizedPathsCount, ViolationsAreFalse, OneFalsePathIsHarmless};
ghost use Rattle.values.specs.FanIn.{PartPromise};
ghost use Rattle.values.specs.Settling.{ControllingValues, SettledWindow, KeptWindow, WindowByValues, NoNarrower};

/// A controlling value at an input of a gate is just one that leaves the output the same whatever the other input is.
pub fn controlling_values() -> u8
    ensures { ControllingValues }
{
    0
}

/// From its settle time until before its earliest time every signal shows what it is when nothing takes time.
pub fn settled_window() -> u8
    ensures { SettledWindow }
{
    0
}

/// From its latest time until before its keep time every signal shows what it is when nothing takes time.
pub fn kept_window() -> u8
    ensures { KeptWindow }
{
    0
}

/// From its settle time until before its keep time every signal whose latest time is no later than its earliest shows
/// what it is when nothing takes time.
pub fn window_by_values() -> u8
    ensures { WindowByValues }
{
    0
}

/// A signal's window by values is no narrower than the one without values, at neither end.
pub fn no_narrower() -> u8
    ensures { NoNarrower }
{
    0
}

/// A signal is settled no sooner than a change can come along a path that is sensitized.
pub fn sensitized_paths_count() -> u8
    ensures { SensitizedPathsCount }
{
    0
}

/// A register whose sums are right by values takes what its signal is with what all registers held, whatever that
/// was.
pub fn takes_its_signal() -> u8
    ensures { TakesItsSignal }
{
    0
}

/// After every cycle of every run of a machine that is passed by values every register holds the drawing's bit.
pub fn promise_by_values() -> u8
    ensures { PromiseByValues }
{
    0
}

/// In each cycle every signal of a machine that is passed by values is the drawing's bit in its window by values.
pub fn in_window_by_values() -> u8
    ensures { InWindowByValues }
{
    0
}

/// What is passed is passed by values, with the setup sum or with both.
pub fn passes_no_less() -> u8
    ensures { PassesNoLess }
{
    0
}

/// Some circuit is passed by values and not passed.
pub fn passes_more() -> u8
    ensures { PassesMore }
{
    0
}

/// What is passed by values is so with every longer period.
pub fn slower_by_values() -> u8
    ensures { SlowerByValues }
{
    0
}

/// The promise holds with both sums by values, where no signal begins to change before it has changed last.
pub fn promise_at_both_ends() -> u8
    ensures { PromiseAtBothEnds }
{
    0
}

/// At a register that is right by values every path that violates the setup time is false.
pub fn violations_are_false() -> u8
    ensures { ViolationsAreFalse }
{
    0
}

/// A register at which one path alone violates the setup time, a false one, is right by values.
pub fn one_false_path_is_harmless() -> u8
    ensures { OneFalsePathIsHarmless }
{
    0
}

/// Some circuit goes wrong that is passed with false-path exceptions: with two of them, and with one.
pub fn exceptions_fail() -> u8
    ensures two { TwoExceptionsFail }
    ensures one { OneExceptionFails }
{
    0
}

/// What is passed with false-path exceptions is passed with a period that is longer by as much as they are late.
pub fn passed_with_longer() -> u8
    ensures { PassedWithLonger }
{
    0
}

/// Registers that are right by values, and closed under fan-in, hold the drawing's bits whatever the others do.
pub fn part_promise() -> u8
    ensures { PartPromise }
{
    0
}

/// Bounds from some of the registers' bits hold whatever the other bits are, and are exact where all that matter are
/// known; likewise whether a path is blocked.
pub fn bounds_hold() -> u8
    ensures holds { BoundsHold }
    ensures exact { BoundsAreExact }
    ensures blocked { BlockedIsNotSensitized }
    ensures opened { OpenIsSensitized }
{
    0
}
