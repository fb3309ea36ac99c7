// The clocks that come to one register, moment by moment.
ghost use Rattle.std.specs.Prelude.{◌≡◌};
ghost use Rattle.clocks.specs.Ticking.{Ticking, Ticked};

use crate::bench::Bench;

// The next clock that comes to a register, and the cycle of which it is.
#[derive(Clone, Copy)]
pub struct Ticks {
    register: usize,
    cycle: u64,
    next: u64,
}

impl Ticks {
    // The clocks of register `r`, before the first moment.
    pub fn new(bench: Bench<'_>, r: usize) -> Ticks
        ensures register { result.register ≡ r }
        ensures first { Ticking bench.entry 0 result }
    {
        Ticks {
            register: r,
            cycle: 0,
            next: bench.first_clock(r),
        }
    }

    // Whether the clock of some cycle comes at moment `t`. It is asked for every moment, one after another from 0 on.
    pub fn comes(&mut self, bench: Bench<'_>, t: u64) -> bool
        ensures { Ticked bench.entry t self.old self.new result }
    {
        let came = self.next == t;
        if came {
            self.cycle = self.cycle.saturating_add(1);
            self.next = bench.next_clock(self.cycle, self.register, self.next);
        }
        came
    }
}
