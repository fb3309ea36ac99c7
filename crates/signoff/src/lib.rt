// Passing a clocked circuit, or naming what stands in its way.
#![tactic(auto)]

ghost use Rattle.std.specs.Prelude.{◌≡◌, ◌*◌, ◌^◌, ◌<◌, ◌≤◌, ◌↔◌, IsTrue};
ghost use Rattle.circuit.specs.Checked.{of, registers_of, signals_of};
ghost use Rattle.circuit.specs.Lent.{takes};
ghost use Rattle.circuit.specs.Refused.{AllOrFirst};
ghost use Rattle.signoff.specs.Verdict.{SumsOf, SumsKept, Named, Judged, Says, Answers};

use arrival::{Arrivals, Edge, FEW_SIGNALS, MOST_SIGNALS, fill_from_registers};
use circuit::{Circuit, MOST_GATES, Numbers, Refusal, Register};

mod verdict;

pub use verdict::{Miss, Verdict};

// As many numbers as a path can have: a register, and two for each gate.
pub const LONGEST_PATH: usize = 1 + 2 * MOST_GATES;

// Two sums of a register that are compared, and the signal that it takes.
#[derive(Clone, Copy)]
struct Sums {
    signal: usize,
    arrival: u64,
    limit: u64,
}

// Its late sums are latest time and setup, period and early time; its early ones earliest time, late time and hold.
fn sums_at(a: Arrivals<'_, '_>, edge: Edge, r: usize) -> Sums
    requires { r < registers_of a.circuit }
    ensures signal { result.signal ≡ takes a.entry.circuit.registers.now r }
    ensures sums { of a.entry.circuit SumsOf edge r result.arrival result.limit }
{
    let register = Register::from(a.circuit.registers()[r]);
    let signal = register.signal as usize;
    let (arrival, limit) = match edge {
        Edge::Late => (
            a.latest[signal] + u64::from(a.circuit.setup()),
            u64::from(a.circuit.period()) + u64::from(register.early),
        ),
        Edge::Early => (
            a.earliest[signal],
            u64::from(register.late) + u64::from(a.circuit.hold()),
        ),
    };
    Sums {
        signal,
        arrival,
        limit,
    }
}

// Whether the sums of a register are right.
fn kept(a: Arrivals<'_, '_>, edge: Edge, r: usize) -> bool
    requires { r < registers_of a.circuit }
    ensures { IsTrue result ↔ of a.entry.circuit SumsKept edge r }
{
    let sums = sums_at(a, edge, r);
    match edge {
        Edge::Late => sums.arrival <= sums.limit,
        Edge::Early => sums.limit < sums.arrival,
    }
}

// The first register whose sums are not right: whose input comes too late, or changes too early.
fn first_missed(a: Arrivals<'_, '_>, edge: Edge) -> Option<usize>
    ensures { AllOrFirst (of a.entry.circuit SumsKept edge) (registers_of a.entry.circuit) result }
{
    let n = a.circuit.register_count();
    let mut r = 0;
    // A loop left with its value, one of the forms that are named in docs/DECISIONS.md.
    loop {
        if r == n {
            break None;
        }
        if !kept(a, edge, r) {
            break Some(r);
        }
        r += 1;
    }
}

// The verdict that names a register, with its sums and its path, which goes into `room`.
fn miss(
    a: Arrivals<'_, '_>,
    edge: Edge,
    register: usize,
    room: &mut [u32],
) -> Result<Verdict, Refusal>
    requires inside { register < registers_of a.circuit }
    requires named { of a.circuit Named edge register }
    ensures { of a.entry.circuit Judged room.old room.new result }
{
    let sums = sums_at(a, edge, register);
    let path = path::path(a, edge, sums.signal, room)?;
    let miss = Miss {
        register,
        arrival: sums.arrival,
        limit: sums.limit,
        path,
    };
    match edge {
        Edge::Late => Ok(Verdict::TooLate(miss)),
        Edge::Early => Ok(Verdict::TooEarly(miss)),
    }
}

// The verdict on a circuit whose arrival times are known; the path goes into `room`.
fn judge(a: Arrivals<'_, '_>, room: &mut [u32]) -> Result<Verdict, Refusal>
    ensures { of a.entry.circuit Judged room.old room.new result }
{
    if let Some(register) = first_missed(a, Edge::Late) {
        return miss(a, Edge::Late, register, room);
    }
    if let Some(register) = first_missed(a, Edge::Early) {
        return miss(a, Edge::Early, register, room);
    }
    Ok(Verdict::Passed)
}

// The same of a circuit whose arrival times are not known yet, with room for those of `N` signals, which is cleared. It is
// not inlined, so that where `N` is small little of the stack is used.
#[inline(never)]
fn judge_within<const N: usize>(circuit: Circuit<'_>, room: &mut [u32]) -> Result<Verdict, Refusal>
    requires few { signals_of circuit ≤ N }
    requires small { N * 8 < 2 ^ 63 }
    ensures { of circuit.entry Judged room.old room.new result }
{
    let mut latest = [0; N];
    let mut earliest = [0; N];
    fill_from_registers(circuit, &mut latest, &mut earliest)?;
    judge(Arrivals::new(circuit, &latest, &earliest), room)
}

// The same with as much room as the circuit may need, and no heap: passing cannot want memory.
fn judge_circuit(circuit: Circuit<'_>, room: &mut [u32]) -> Result<Verdict, Refusal>
    ensures { of circuit.entry Judged room.old room.new result }
{
    if circuit.signal_count() <= FEW_SIGNALS {
        judge_within::<FEW_SIGNALS>(circuit, room)
    } else {
        judge_within::<MOST_SIGNALS>(circuit, room)
    }
}

// Passes a clocked circuit, or names the first register whose input comes too late, else the first whose input changes
// too early, with the path by which this is so in `room`. If it is passed, every run of it holds the drawing's bits.
pub fn pass<'a>(
    gates: &'a [u32],
    registers: &'a [u32],
    times: &'a [u32],
    room: &mut [u32],
) -> Result<Verdict, Refusal>
    ensures { Answers gates.now registers.now times.now room.old room.new result }
{
    let circuit = Circuit::try_from(Numbers {
        gates,
        registers,
        times,
    })?;
    judge_circuit(circuit, room)
}

// The verdict on a circuit, with room for every path.
pub fn verdict_on(circuit: Circuit<'_>, room: &mut [u32; LONGEST_PATH]) -> Verdict
    ensures { of circuit.entry Says room.old room.new result }
{
    let Ok(verdict) = pass(circuit.gates, circuit.registers, circuit.times, room) else {
        unreachable!()
    };
    verdict
}
