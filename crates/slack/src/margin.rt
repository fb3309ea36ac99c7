// The margins of a circuit's registers.
ghost use Rattle.std.specs.Prelude.{◌≡◌, ◌*◌, ◌^◌, ◌<◌, ◌≤◌, length, MatchOption, MatchResult, pos, ◌+ℤ◌, ◌<ℤ◌, ◌≤ℤ◌};
ghost use Rattle.circuit.specs.Checked.{of, registers_of, signals_of};
ghost use Rattle.circuit.specs.Lent.{takes};
ghost use Rattle.circuit.specs.declared.refusal.Refusal.TheVariants.{NoRoom};
ghost use Rattle.arrival.specs.Lent.{time_of};
ghost use Rattle.promise.specs.Machine.{machine_in};
ghost use Rattle.slack.specs.Margin.{margin_of, MarginsIn, IsWorst, AreSmallest};
ghost use Rattle.slack.specs.Required.{required_of, IsEnds};

use crate::endpoint::Ends;
use crate::worst::{Smallest, Worst};
use arrival::{Arrivals, Edge, FEW_SIGNALS, MOST_SIGNALS, fill_from_registers};
use circuit::{Circuit, MOST_REGISTERS, Refusal, Register};

// As many margins as a circuit can have.
const MOST_MARGINS: usize = 2 * MOST_REGISTERS;

// The latest or the earliest time of the signal that a register takes.
fn arrival_at(a: Arrivals<'_, '_>, edge: Edge, r: usize) -> i64
    requires { r < registers_of a.circuit }
    ensures time { result ≡ pos (of a.entry.circuit (time_of edge) (takes a.entry.circuit.registers.now r)) }
    ensures small { result <ℤ pos (2 ^ 34) }
{
    let register = Register::from(a.circuit.registers()[r]);
    let signal = register.signal as usize;
    a.on(edge)[signal] as i64
}

// When the signal that a register takes has to come: at the latest for its setup sum, at the earliest for its hold sum.
fn required(c: Circuit<'_>, edge: Edge, r: usize) -> i64
    requires { r < registers_of c }
    ensures time { result ≡ required_of edge (of c.entry machine_in) r }
    ensures small { (result <ℤ pos (2 ^ 34)) × (pos 0 ≤ℤ (result +ℤ pos (2 ^ 34))) }
{
    let register = Register::from(c.registers()[r]);
    match edge {
        Edge::Late => { i64::from(c.period()) + i64::from(register.early) - i64::from(c.setup()) }
        Edge::Early => i64::from(register.late) + i64::from(c.hold()) + 1,
    }
}

// The three times of a register. The margin is how much its sum could grow and still be right; below 0, how much is missing.
fn ends_of(a: Arrivals<'_, '_>, edge: Edge, r: usize) -> Ends
    requires { r < registers_of a.circuit }
    ensures { IsEnds edge a.entry.circuit r result }
{
    let arrival = arrival_at(a, edge, r);
    let required = required(a.circuit, edge, r);
    let margin = match edge {
        Edge::Late => required - arrival,
        Edge::Early => arrival - required,
    };
    Ends {
        arrival,
        required,
        margin,
    }
}

// The margin of a register for one of its sums.
fn margin(a: Arrivals<'_, '_>, edge: Edge, r: usize) -> i64
    requires { r < registers_of a.circuit }
    ensures { result ≡ margin_of edge (of a.entry.circuit machine_in) r }
{
    ends_of(a, edge, r).margin
}

// The three times of a register for one of its sums, None where there is no such register.
pub fn ends(a: Arrivals<'_, '_>, edge: Edge, register: usize) -> Option<Ends>
    ensures { MatchOption result
        (registers_of a.entry.circuit ≤ register)
        (λ x. (register < registers_of a.entry.circuit) × IsEnds edge a.entry.circuit register x) }
{
    if register >= a.circuit.register_count() {
        return None;
    }
    Some(ends_of(a, edge, register))
}

// The smallest margin of one kind.
fn worst(a: Arrivals<'_, '_>, edge: Edge) -> Worst
    ensures { IsWorst edge (of a.entry.circuit machine_in) (registers_of a.entry.circuit) result }
{
    let mut worst = Worst {
        register: 0,
        margin: margin(a, edge, 0),
    };
    // A chain by `min_by_key` would end in an Option, where there always is a register.
    for register in 1..a.circuit.register_count() {
        let margin = margin(a, edge, register);
        if margin < worst.margin {
            worst = Worst { register, margin };
        }
    }
    worst
}

// The smallest margin of each kind, where arrival times are known.
fn smallest_of(a: Arrivals<'_, '_>) -> Smallest
    ensures { AreSmallest (of a.entry.circuit machine_in) result }
{
    Smallest {
        setup: worst(a, Edge::Late),
        hold: worst(a, Edge::Early),
    }
}

// Writes both margins of every register.
fn fill(a: Arrivals<'_, '_>, room: &mut [i64])
    requires { 2 * registers_of a.circuit ≤ length room.old }
    ensures { MarginsIn (of a.entry.circuit machine_in) (registers_of a.entry.circuit) room.old room.new }
{
    for r in 0..a.circuit.register_count() {
        room[2 * r] = margin(a, Edge::Late, r);
        room[2 * r + 1] = margin(a, Edge::Early, r);
    }
}

// Writes both margins of every register and answers the smallest of each kind, with room for the times of `N` signals,
// which is cleared. It is not inlined, so that where `N` is small little of the stack is used.
#[inline(never)]
fn margins_within<const N: usize>(circuit: Circuit<'_>, room: &mut [i64]) -> Smallest
    requires few { signals_of circuit ≤ N }
    requires small { N * 8 < 2 ^ 63 }
    requires room { 2 * registers_of circuit ≤ length room.old }
    ensures margins { MarginsIn (of circuit.entry machine_in) (registers_of circuit.entry) room.old room.new }
    ensures smallest { AreSmallest (of circuit.entry machine_in) result }
{
    let mut latest = [0; N];
    let mut earliest = [0; N];
    let Ok(()) = fill_from_registers(circuit, &mut latest, &mut earliest) else {
        unreachable!()
    };
    let a = Arrivals::new(circuit, &latest, &earliest);
    fill(a, room);
    smallest_of(a)
}

// Writes both margins of every register, the setup margin of register `r` at `2 * r` of the lent room and its hold margin
// behind it, and answers the smallest of each kind. Room for fewer is refused, and room for more keeps the rest of what it
// had.
pub fn margins(circuit: Circuit<'_>, room: &mut [i64]) -> Result<Smallest, Refusal>
    ensures { MatchResult result
        (λ s. (2 * registers_of circuit.entry ≤ length room.old)
        × MarginsIn (of circuit.entry machine_in) (registers_of circuit.entry) room.old room.new
        × AreSmallest (of circuit.entry machine_in) s)
        (λ e. (length room.old < 2 * registers_of circuit.entry) × (e ≡ NoRoom (2 * registers_of circuit.entry)) × (room.new ≡ room.old)) }
{
    let needed = 2 * circuit.register_count();
    if room.len() < needed {
        return Err(Refusal::NoRoom(needed));
    }
    // As much room for times as the circuit may need, and no heap.
    let smallest = if circuit.signal_count() <= FEW_SIGNALS {
        margins_within::<FEW_SIGNALS>(circuit, room)
    } else {
        margins_within::<MOST_SIGNALS>(circuit, room)
    };
    Ok(smallest)
}

// The smallest margin of each kind. Room for all of them is on the stack for no longer.
#[inline(never)]
pub fn smallest(circuit: Circuit<'_>) -> Smallest
    ensures { AreSmallest (of circuit.entry machine_in) result }
{
    // There is room for any circuit's.
    let mut room = [0; MOST_MARGINS];
    let Ok(smallest) = margins(circuit, &mut room) else {
        unreachable!()
    };
    smallest
}
