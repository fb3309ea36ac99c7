// The parts of a circuit.
ghost use Rattle.std.specs.Prelude.{◌≡◌};
ghost use Rattle.text.specs.Meaning.{refusal_of};

use circuit::Refusal;

// A part of a circuit, in the order in which miscounted lines are kept.
#[derive(Clone, Copy, PartialEq, PartialOrd)]
pub enum Part {
    Gates,
    Registers,
    Times,
}

// What refuses a circuit where the numbers of a part are too few or too many.
impl From<Part> for Refusal {
    ghost from_gives = { λ part refusal. refusal ≡ refusal_of part };

    fn from(part: Part) -> Refusal {
        match part {
            Part::Gates => Refusal::GateNumbers,
            Part::Registers => Refusal::RegisterNumbers,
            Part::Times => Refusal::TimeNumbers,
        }
    }
}
