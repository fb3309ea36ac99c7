// What passing a clocked circuit promises: theorems, each the contract of a function.
#![tactic(auto)]

ghost use Rattle.promise.specs.Promise.{Promise, InWindow, Narrower, Slower, CanGo};

// After every cycle of every run of a passed machine every register holds the drawing's bit.
pub fn promise_kept() -> u8
    ensures { Promise }
{
    0
}

// In each cycle every signal of a passed machine is the drawing's bit in its window.
pub fn in_window() -> u8
    ensures { InWindow }
{
    0
}

// What is passed is so with bounds that lie within the old ones.
pub fn narrower() -> u8
    ensures { Narrower }
{
    0
}

// What is passed is so with every longer period.
pub fn slower() -> u8
    ensures { Slower }
{
    0
}

// A passed machine can go, from any contents, by any delays and any clocks within their bounds.
pub fn can_go() -> u8
    ensures { CanGo }
{
    0
}
