// A run beside its drawing, before its first moment.
ghost use Rattle.std.specs.Prelude.{◌≡◌, IfOk, MatchResult, vec_items};
ghost use Rattle.circuit.specs.Checked.{of, registers_of};
ghost use Rattle.script.specs.Told.{start_told};
ghost use Rattle.trial.specs.Made.{Begun};
ghost use Rattle.trial.specs.Stopped.{Stopped};
ghost use Rattle.watch.specs.Bits.{BitsOf, BitsAtStart};

use crate::watch::Watch;
use clocks::{Bench, start_of};
use std::alloc::{AllocError, Global};
use trial::{Stop, Trial, prepare};

// A register's bit at the start.
fn start_bit(bench: Bench<'_>, r: usize) -> bool
    ensures { result ≡ of bench.entry.circuit (start_told bench.entry.script.now) r }
{
    start_of(bench.script, r)
}

// The registers' bits at the start.
fn start_bits(heap: Global, bench: Bench<'_>) -> Result<Vec<bool>, AllocError>
    ensures { IfOk result (λ v. BitsOf (registers_of bench.entry.circuit) (of bench.entry.circuit (start_told bench.entry.script.now)) (vec_items v)) }
{
    let n = bench.circuit.register_count();
    let mut bits = Vec::with_capacity(heap, n)?;
    for r in 0..n {
        bits.push(start_bit(bench, r))?;
    }
    Ok(bits)
}

// The bits with which the run and its drawing begin, and room for as many bits as there are signals.
fn all_bits(heap: Global, bench: Bench<'_>) -> Result<(Vec<bool>, Vec<bool>, Vec<bool>), AllocError>
    ensures { IfOk result (λ x. of bench.entry.circuit (BitsAtStart bench.entry.script.now) (vec_items x.0) (vec_items x.1) (vec_items x.2)) }
{
    let held = start_bits(heap, bench)?;
    let drawn = start_bits(heap, bench)?;
    let signals = vec![in heap; false; bench.circuit.signal_count()]?;
    Ok((held, drawn, signals))
}

impl<'a> Watch<'a> {
    // A run before its first moment, where one is possible. The registers hold what the drawing begins with.
    pub fn prepare(heap: Global, bench: Bench<'a>) -> Result<Watch<'a>, Stop>
        ensures { MatchResult result
            (λ y. Begun bench.entry y.trial)
            (λ e. of bench.entry.circuit (Stopped bench.entry.script.now) e) }
    {
        let room = prepare(heap, bench)?;
        let (held, drawn, signals) = all_bits(heap, bench)?;
        let trial = Trial::new(bench, room);
        Ok(Watch {
            trial,
            held,
            drawn,
            signals,
        })
    }
}
