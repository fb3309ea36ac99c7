// The registers at one moment.
ghost use Rattle.std.specs.Prelude.{◌≡◌, ◌+◌, ◌≤◌, ◌<◌, length, min, nat_le};
ghost use Rattle.circuit.specs.Checked.{of, registers_of};
ghost use Rattle.circuit.specs.Lent.{register_in};
ghost use Rattle.promise.specs.Machine.{machine_in};
ghost use Rattle.history.specs.Kept.{kept};
ghost use Rattle.simulation.specs.Simulated.{still, first_seen, end_seen, must_show, shown_of};
ghost use Rattle.step.specs.Stands.{RegisterGoes, RegistersGo};

use crate::state::State;
use crate::told::{Clocks, Now};
use circuit::{Circuit, Register};
use history::History;

// The bit that a signal kept from moment `from` until before `end`, if it kept one.
fn still(past: &History, signal: usize, from: u64, end: u64) -> Option<bool>
    ensures { result ≡ still (kept past.now signal) from end }
{
    let bit = past.get(signal, from);
    for u in from..end {
        if past.get(signal, u) != bit {
            return None;
        }
    }
    Some(bit)
}

// The bit that a signal kept at all moments from which a register with its clock at `clock` decides what it takes, if it
// kept one.
pub fn settled(past: &History, circuit: Circuit<'_>, signal: usize, clock: u64) -> Option<bool>
    ensures { result ≡ still (kept past.now signal) (first_seen (of circuit.entry machine_in) clock) (min (end_seen (of circuit.entry machine_in) clock) u64.MAX) }
{
    let from = clock.saturating_sub(u64::from(circuit.setup()));
    let seen = (u64::from(circuit.hold()) + 1).min(u64::from(circuit.output_late()));
    still(past, signal, from, clock.saturating_add(seen))
}

// Whether moment `t` is no sooner than `time` after `moment`.
fn reached(moment: u64, time: u32, t: u64) -> bool
    ensures { result ≡ nat_le (moment + time) t }
{
    let time = u64::from(time);
    time <= t && moment <= t - time
}

// Whether a register with its clock at `clock` and the next one at `next` must show its bit at moment `t`: from the latest
// output time after its clock until before the earliest after the next.
pub fn must_show(circuit: Circuit<'_>, clock: u64, next: u64, t: u64) -> bool
    ensures { result ≡ must_show (of circuit.entry machine_in) clock next t }
{
    reached(clock, circuit.output_late(), t) && !reached(next, circuit.output_early(), t)
}

// What it shows: its bit, or what is told.
fn shown(circuit: Circuit<'_>, clock: u64, next: u64, t: u64, bit: bool, told: bool) -> bool
    ensures { result ≡ shown_of (of circuit.entry machine_in) clock next t bit told }
{
    if must_show(circuit, clock, next, t) {
        bit
    } else {
        told
    }
}

// What a register does at a moment: the cycle that it has come to, its bit of that cycle, and what it shows.
#[derive(Clone, Copy)]
struct Doing {
    cycle: u64,
    bit: bool,
    shows: bool,
}

impl State {
    // What register `r` does at moment `t`, where `show` is what it shows if it may show anything. Where it must begin to
    // show what it takes at its next clock, it decides that from the moments that have passed.
    fn register_now(
        &self,
        circuit: Circuit<'_>,
        r: usize,
        register: Register,
        told: Clocks,
        show: bool,
        t: u64,
    ) -> Doing
        requires cycles { r < length self.now.cycles.items }
        requires register { r < registers_of circuit }
        requires is { register ≡ register_in circuit.registers.now r }
        ensures { of circuit.entry RegisterGoes t r show told self.now result }
    {
        let n = self.cycles[r];
        if reached(told.next, circuit.output_late(), t) {
            let signal = register.signal as usize;
            let bit = settled(&self.past, circuit, signal, told.next).unwrap_or(told.take);
            Doing {
                cycle: n.saturating_add(1),
                bit,
                shows: shown(circuit, told.next, told.after, t, bit, show),
            }
        } else {
            let bit = self.bits.get(r, n);
            Doing {
                cycle: n,
                bit,
                shows: shown(circuit, told.clock, told.next, t, bit, show),
            }
        }
    }

    // All registers, one after another: each comes to its cycle, keeps its bit of it, and shows something.
    pub(crate) fn registers_now(&mut self, circuit: Circuit<'_>, told: Now<'_>)
        requires cycles { registers_of circuit ≤ length self.old.cycles.items }
        requires shows { registers_of circuit ≤ length told.shows.now }
        requires clocks { registers_of circuit ≤ length told.clocks.now }
        ensures { of circuit.entry RegistersGo told.entry (registers_of circuit.entry) self.old self.new }
    {
        let t = told.moment;
        for (r, register) in circuit.registers().iter().enumerate() {
            let register = Register::from(*register);
            let d = self.register_now(circuit, r, register, told.clocks[r], told.shows[r], t);
            self.cycles[r] = d.cycle;
            self.bits.put(r, d.cycle, d.bit);
            self.past.put(r, t, d.shows);
        }
    }
}
