// What a circuit does when nothing takes time.
#![tactic(auto)]

ghost use Rattle.std.specs.Prelude.{◌≡◌, ◌+◌, ◌%◌, ◌<◌, ◌≤◌, false, length, MatchResult};
ghost use Rattle.circuit.specs.Filled.{Filled};
ghost use Rattle.circuit.specs.Gate.{output};
ghost use Rattle.circuit.specs.Circuit.{Sound};
ghost use Rattle.circuit.specs.Checked.{registers_of, signals_of};
ghost use Rattle.circuit.specs.Lent.{gate_count, circuit_in, takes};
ghost use Rattle.drawing.specs.Drawing.{ideal, IdealIsSettled};
ghost use Rattle.drawing.specs.Lent.{bit_at, drawing_of, CyclesAnswer, RoomRefused};

use circuit::{Circuit, Gate, Refusal, Register, table};

// The output of a gate, from the signals before it.
fn output_of(gate: Gate, signals: &[bool]) -> bool
    requires one { gate.one < length signals.now }
    requires two { gate.two < length signals.now }
    ensures { result ≡ output gate.table (bit_at signals.now gate.one) (bit_at signals.now gate.two) }
{
    let one = signals[gate.one as usize];
    let two = signals[gate.two as usize];
    table::output(gate.table, one, two)
}

// What every signal is, from the registers' bits with which `signals` begins: each turn takes the first gate, and hands on
// the part from the next gate on.
fn settle_gates(circuit: Circuit<'_>, signals: &mut [bool])
    requires { signals_of circuit ≤ length signals.old }
    ensures { Filled false (signals_of circuit.entry) (ideal (drawing_of circuit.entry) (bit_at signals.old)) signals.old signals.new }
{
    let mut rest = circuit.gates;
    let mut at = circuit.register_count();
    while let Some(gate) = rest.first_chunk() {
        signals[at] = output_of(Gate::from(*gate), signals);
        at += 1;
        // The part from the next gate on is handed on, as docs/DECISIONS.md names it.
        rest = &rest[7..];
    }
}

// What every signal is when nothing takes time, from the registers' bits with which `signals` begins. Room for fewer
// places than there are signals is refused.
pub fn settle(circuit: Circuit<'_>, signals: &mut [bool]) -> Result<(), Refusal>
    ensures { MatchResult result
        (λ _. (signals_of circuit.entry ≤ length signals.old)
        × Filled false (signals_of circuit.entry) (ideal (drawing_of circuit.entry) (bit_at signals.old)) signals.old signals.new)
        (λ e. RoomRefused (signals_of circuit.entry) signals.old signals.new e) }
{
    let all = circuit.signal_count();
    if signals.len() < all {
        return Err(Refusal::NoRoom(all));
    }
    settle_gates(circuit, signals);
    Ok(())
}

// The first `n` bits as the first `n` signals.
fn show(bits: &[bool], n: usize, signals: &mut [bool])
    requires bits { n ≤ length bits.now }
    requires signals { n ≤ length signals.old }
    ensures { Filled false n (bit_at bits.now) signals.old signals.new }
{
    signals[..n].copy_from_slice(&bits[..n]);
}

// All registers at once take what their signals are.
fn take(circuit: Circuit<'_>, signals: &[bool], bits: &mut [bool])
    requires room { registers_of circuit ≤ length bits.old }
    requires within { signals_of circuit ≤ length signals.now }
    ensures { Filled false (registers_of circuit.entry) (λ r. bit_at signals.now (takes circuit.entry.registers.now r)) bits.old bits.new }
{
    for (r, register) in circuit.registers().iter().enumerate() {
        bits[r] = signals[Register::from(*register).signal as usize];
    }
}

// One cycle where there is room for it.
fn one_cycle(circuit: Circuit<'_>, bits: &mut [bool], signals: &mut [bool])
    requires bits { registers_of circuit ≤ length bits.old }
    requires signals { signals_of circuit ≤ length signals.old }
    ensures settled { Filled false (signals_of circuit.entry) (ideal (drawing_of circuit.entry) (bit_at bits.old)) signals.old signals.new }
    ensures taken { Filled false (registers_of circuit.entry) (λ r. ideal (drawing_of circuit.entry) (bit_at bits.old) (takes circuit.entry.registers.now r)) bits.old bits.new }
{
    show(bits, circuit.register_count(), signals);
    settle_gates(circuit, signals);
    take(circuit, signals, bits);
}

// `count` cycles from the bits that the registers hold: in each, all of them at once take what their signals are.
// `signals` is lent to work in. Room that is too short for the bits, or then for the signals, is refused.
pub fn cycles(
    circuit: Circuit<'_>,
    count: u64,
    bits: &mut [bool],
    signals: &mut [bool],
) -> Result<(), Refusal>
    ensures { CyclesAnswer circuit.entry count bits.old bits.new signals.old signals.new result }
{
    let n = circuit.register_count();
    if bits.len() < n {
        return Err(Refusal::NoRoom(n));
    }
    let needed = circuit.signal_count();
    if signals.len() < needed {
        return Err(Refusal::NoRoom(needed));
    }
    for i in 0..count {
        one_cycle(circuit, bits, signals);
    }
    Ok(())
}

// One cycle.
pub fn cycle(circuit: Circuit<'_>, bits: &mut [bool], signals: &mut [bool]) -> Result<(), Refusal>
    ensures { CyclesAnswer circuit.entry 1 bits.old bits.new signals.old signals.new result }
{
    cycles(circuit, 1, bits, signals)
}

// The settled signals are the one and only assignment that agrees with the registers and in which every gate's signal is
// what its table makes of its two inputs' signals.
pub fn ideal_is_settled() -> u8
    ensures { IdealIsSettled }
{
    0
}
