// Clocks of registers that go on from cycle to cycle.
ghost use Rattle.std.specs.Prelude.{◌≡◌, ◌<◌, ◌≤◌, length, IfOk};
ghost use Rattle.circuit.specs.Checked.{of, registers_of};
ghost use Rattle.telling.specs.Said.{ClocksTold, ClocksGoOn, Followed, FirstTold};

use clocks::{Bench, take_of};
use std::alloc::{AllocError, Global};
use step::Clocks;

// What register `r` is told in its first cycle.
fn first(bench: Bench<'_>, r: usize) -> Clocks
    ensures { of bench.entry.circuit (ClocksTold bench.entry.script.now) r 0 result }
{
    let clock = bench.first_clock(r);
    let next = bench.next_clock(1, r, clock);
    Clocks {
        cycle: 0,
        clock,
        next,
        after: bench.next_clock(2, r, next),
        take: take_of(bench.script, 1, r),
    }
}

// What register `r` is told in cycle `n`, by what it was told in the one before.
fn go_on(bench: Bench<'_>, r: usize, n: u64, told: Clocks) -> Clocks
    ensures { of bench.entry.circuit (ClocksGoOn bench.entry.script.now) r n told result }
{
    Clocks {
        cycle: n,
        clock: told.next,
        next: told.after,
        after: bench.next_clock(n.saturating_add(2), r, told.after),
        take: take_of(bench.script, n.saturating_add(1), r),
    }
}

// What all registers are told in their first cycle.
pub(crate) fn begin(heap: Global, bench: Bench<'_>) -> Result<Vec<Clocks>, AllocError>
    ensures { IfOk result (λ v. of bench.entry.circuit (FirstTold bench.entry.script.now) (registers_of bench.entry.circuit) v.items) }
{
    let n = bench.circuit.register_count();
    let mut clocks = Vec::with_capacity(heap, n)?;
    for r in 0..n {
        clocks.push(first(bench, r))?;
    }
    Ok(clocks)
}

// What registers are told in the cycles that they have come to, which are those of which they were told or the next.
pub(crate) fn follow(bench: Bench<'_>, cycles: &[u64], clocks: &mut [Clocks])
    requires cycles { registers_of bench.circuit ≤ length cycles.now }
    requires clocks { registers_of bench.circuit ≤ length clocks.old }
    ensures { of bench.entry.circuit (Followed bench.entry.script.now) cycles.now (registers_of bench.entry.circuit) clocks.old clocks.new }
{
    for r in 0..bench.circuit.register_count() {
        if clocks[r].cycle != cycles[r] {
            clocks[r] = go_on(bench, r, cycles[r], clocks[r]);
        }
    }
}
