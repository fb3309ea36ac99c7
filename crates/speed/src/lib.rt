// What benchmarks written in C call.
#![tactic(auto)]

ghost use Rattle.std.specs.Prelude.{MatchResult};
ghost use Rattle.circuit.specs.Whole.{Whole};
ghost use Rattle.speed.specs.Turns.{Gone, TurnRefused, TurnNumber};

use arrival::fill_from_registers;
use circuit::{Circuit, Numbers, Refusal};

fn fill<'a>(
    gates: &'a [u32],
    registers: &'a [u32],
    times: &'a [u32],
    latest: &mut [u64],
    earliest: &mut [u64],
    turns: u32,
) -> Result<(), Refusal>
    ensures { MatchResult result
        (λ _. Whole gates.now registers.now times.now × Gone gates.now registers.now times.now turns latest.old latest.new earliest.old earliest.new)
        (TurnRefused gates.now registers.now times.now turns latest.old latest.new earliest.old earliest.new) }
{
    let circuit = Circuit::try_from(Numbers {
        gates,
        registers,
        times,
    })?;
    for _ in 0..turns {
        fill_from_registers(circuit, latest, earliest)?;
    }
    Ok(())
}

// Looks at a circuit once and then fills in all of its arrival times so many times; answers the number of the refusal, 0
// if there is none: C has no `Result`.
#[unsafe(no_mangle)]
pub extern "C" fn muleminute_fill<'a>(
    gates: &'a [u32],
    registers: &'a [u32],
    times: &'a [u32],
    latest: &mut [u64],
    earliest: &mut [u64],
    turns: u32,
) -> u32
    ensures { TurnNumber gates.now registers.now times.now turns latest.old latest.new earliest.old earliest.new result }
{
    match fill(gates, registers, times, latest, earliest, turns) {
        Ok(()) => 0,
        Err(refusal) => refusal.number(),
    }
}
