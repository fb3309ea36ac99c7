// The two sums of a register that are compared, and the margin between them.
ghost use Rattle.std.specs.Prelude.{◌≡◌, ◌^◌, ◌<◌};
ghost use Rattle.circuit.specs.Checked.{of, registers_of};
ghost use Rattle.circuit.specs.Lent.{takes};
ghost use Rattle.arrival.specs.Lent.{time_of};
ghost use Rattle.signoff.specs.Verdict.{SumsOf};
ghost use Rattle.cone.specs.Alone.{margin_between, IsWord};

use crate::endpoint::Word;
use arrival::Edge;
use circuit::{Circuit, Register};

// The signal that a register takes.
pub(crate) fn signal_of(circuit: Circuit<'_>, r: usize) -> usize
    requires { r < registers_of circuit }
    ensures { result ≡ takes circuit.entry.registers.now r }
{
    Register::from(circuit.registers()[r]).signal as usize
}

#[derive(Clone, Copy)]
pub(crate) struct Sums {
    pub(crate) arrival: u64,
    pub(crate) limit: u64,
}

// Its late sums are latest time and setup, period and early time; its early ones earliest time, late time and hold.
pub(crate) fn sums_of(circuit: Circuit<'_>, edge: Edge, r: usize, time: u64) -> Sums
    requires register { r < registers_of circuit }
    requires time { time ≡ of circuit (time_of edge) (takes circuit.registers.now r) }
    ensures sums { of circuit.entry SumsOf edge r result.arrival result.limit }
    ensures few_bits { (result.arrival < 2 ^ 35) × (result.limit < 2 ^ 35) }
{
    let register = Register::from(circuit.registers()[r]);
    match edge {
        Edge::Late => Sums {
            arrival: time + u64::from(circuit.setup()),
            limit: u64::from(circuit.period()) + u64::from(register.early),
        },
        Edge::Early => Sums {
            arrival: time,
            limit: u64::from(register.late) + u64::from(circuit.hold()),
        },
    }
}

// How much lies between two sums; below 0, how much is missing.
pub(crate) fn margin(edge: Edge, sums: Sums) -> i64
    requires { (sums.arrival < 2 ^ 35) × (sums.limit < 2 ^ 35) }
    ensures { result ≡ margin_between edge sums.arrival sums.limit }
{
    let (arrival, limit) = (sums.arrival as i64, sums.limit as i64);
    match edge {
        Edge::Late => limit - arrival,
        Edge::Early => arrival - limit - 1,
    }
}

// The word on a register, from both margins.
pub(crate) fn word_of(setup: i64, hold: i64) -> Word
    ensures { IsWord setup hold result }
{
    if setup < 0 {
        return Word::TooLate;
    }
    if hold < 0 {
        return Word::TooEarly;
    }
    Word::Met
}
