// The number and the place of each refusal.
ghost use Rattle.std.specs.Prelude.{◌≡◌};
ghost use Rattle.circuit.specs.Refused.{number_of, place_of};

use crate::refusal::Refusal;

impl Refusal {
    // Its number in the list of refusals, which is fixed: what is printed, and what C is answered.
    pub fn number(self) -> u32
        ensures { result ≡ number_of self }
    {
        match self {
            Refusal::GateNumbers | Refusal::RegisterNumbers | Refusal::TimeNumbers => 1,
            Refusal::RegisterCount | Refusal::GateCount => 2,
            Refusal::TooLarge(_) => 3,
            Refusal::BadGate(_) => 4,
            Refusal::BadDelay(_) => 5,
            Refusal::BadRegister(_) => 6,
            Refusal::BadOutput => 7,
            Refusal::NoRoom(_) => 8,
            Refusal::OutOfBounds(_) => 9,
            Refusal::NoPeriod | Refusal::NoMoment => 10,
            Refusal::NoSignal(_) => 11,
        }
    }

    // Where it applies, counted from 0; of room that is too short the length that is needed.
    pub fn place(self) -> usize
        ensures { result ≡ place_of self }
    {
        match self {
            Refusal::GateNumbers
            | Refusal::RegisterCount
            | Refusal::BadOutput
            | Refusal::NoPeriod => 0,
            Refusal::RegisterNumbers | Refusal::GateCount | Refusal::NoMoment => 1,
            Refusal::TimeNumbers => 2,
            Refusal::TooLarge(at)
            | Refusal::BadGate(at)
            | Refusal::BadDelay(at)
            | Refusal::BadRegister(at)
            | Refusal::NoSignal(at)
            | Refusal::NoRoom(at)
            | Refusal::OutOfBounds(at) => at,
        }
    }
}
