// Whether three lists of numbers are a circuit, or the first reason why they are not.
ghost use Rattle.std.specs.Prelude.{◌≡◌, ℕ, ◌+◌, ◌*◌, ◌/◌, ◌%◌, ◌<◌, ◌≤◌, length, MatchResult, slice_index, IsTrue, ◌↔◌};
ghost use Rattle.circuit.specs.Checked.{lent};
ghost use Rattle.circuit.specs.Lent.{gate_count, register_count, signal_count};
ghost use Rattle.circuit.specs.Whole.{Whole, Shaped, FewGates, SomeRegisters, Placed, Ranged, Tied};
ghost use Rattle.circuit.specs.Refused.{AllOrFirst, FirstRefusal, MetUpTo, RefusalsAreExact};

use crate::gate::Gate;
use crate::numbers::Numbers;
use crate::refusal::Refusal;
use crate::register::Register;

pub const MOST_REGISTERS: usize = 1_024;

pub const MOST_GATES: usize = 16_384;

pub const LARGEST: u32 = 1_000_000;

const LAST_TABLE: u32 = 15;

// How many numbers a gate has, a register, and a circuit besides.
const GATE_NUMBERS: usize = 7;

const REGISTER_NUMBERS: usize = 3;

const TIME_NUMBERS: usize = 5;

// The first index of a number above the largest.
fn first_large(xs: &[u32]) -> Option<usize>
    ensures { AllOrFirst (λ i. slice_index xs.now i ≤ 1000000) (length xs.now) result }
{
    for (i, x) in xs.iter().enumerate() {
        if *x > LARGEST {
            return Some(i);
        }
    }
    None
}

// Whether a gate has its inputs below a number, and one of the sixteen tables.
fn is_placed(gate: Gate, below: usize) -> bool
    ensures { IsTrue result ↔ ((gate.one < below) × (gate.two < below) × (gate.table ≤ 15)) }
{
    (gate.one as usize) < below && (gate.two as usize) < below && gate.table <= LAST_TABLE
}

// The first gate with an input that is not below it, or a table above 15.
fn first_misplaced(numbers: Numbers<'_>) -> Option<usize>
    requires { register_count numbers.registers.now ≤ 1024 }
    ensures { AllOrFirst (Placed (register_count numbers.entry.registers.now) numbers.entry.gates.now) (gate_count numbers.entry.gates.now) result }
{
    let n = numbers.registers().len();
    for (k, gate) in numbers.gates().iter().enumerate() {
        if !is_placed(Gate::from(*gate), n + k) {
            return Some(k);
        }
    }
    None
}

// Whether neither least delay of a gate is above its greatest.
fn is_ranged(gate: Gate) -> bool
    ensures { IsTrue result ↔ ((gate.least_one ≤ gate.greatest_one) × (gate.least_two ≤ gate.greatest_two)) }
{
    gate.least_one <= gate.greatest_one && gate.least_two <= gate.greatest_two
}

// The first gate with a least delay above its greatest.
fn first_unranged(numbers: Numbers<'_>) -> Option<usize>
    ensures { AllOrFirst (Ranged numbers.entry.gates.now) (gate_count numbers.entry.gates.now) result }
{
    for (k, gate) in numbers.gates().iter().enumerate() {
        if !is_ranged(Gate::from(*gate)) {
            return Some(k);
        }
    }
    None
}

// Whether a register takes one of so many signals, and its early time is not above its late one.
fn is_tied(register: Register, signals: usize) -> bool
    ensures { IsTrue result ↔ ((register.signal < signals) × (register.early ≤ register.late)) }
{
    (register.signal as usize) < signals && register.early <= register.late
}

// The first register that takes no signal of the circuit, or whose early time is above its late one.
fn first_untied(numbers: Numbers<'_>) -> Option<usize>
    ensures { AllOrFirst (Tied (signal_count numbers.entry.gates.now numbers.entry.registers.now) numbers.entry.registers.now) (register_count numbers.entry.registers.now) result }
{
    let n = numbers.registers().len() + numbers.gates().len();
    for (r, register) in numbers.registers().iter().enumerate() {
        if !is_tied(Register::from(*register), n) {
            return Some(r);
        }
    }
    None
}

// Numbers 1 and 2: that the numbers are seven, three and five each, and how many gates and registers they are.
fn look_at_counts(numbers: Numbers<'_>) -> Result<(), Refusal>
    ensures { MatchResult result (λ _. lent numbers.entry MetUpTo 2) (λ e. lent numbers.entry FirstRefusal e) }
{
    if numbers.gates.len() % GATE_NUMBERS != 0 {
        return Err(Refusal::GateNumbers);
    }
    if numbers.registers.len() % REGISTER_NUMBERS != 0 {
        return Err(Refusal::RegisterNumbers);
    }
    if numbers.times.len() != TIME_NUMBERS {
        return Err(Refusal::TimeNumbers);
    }
    let n = numbers.registers().len();
    if n < 1 || n > MOST_REGISTERS {
        return Err(Refusal::RegisterCount);
    }
    if numbers.gates().len() > MOST_GATES {
        return Err(Refusal::GateCount);
    }
    Ok(())
}

// Number 3: that no number is above the largest.
fn look_at_sizes(numbers: Numbers<'_>) -> Result<(), Refusal>
    requires { lent numbers MetUpTo 2 }
    ensures { MatchResult result (λ _. lent numbers.entry MetUpTo 3) (λ e. lent numbers.entry FirstRefusal e) }
{
    if let Some(i) = first_large(numbers.gates) {
        return Err(Refusal::TooLarge(i));
    }
    if let Some(i) = first_large(numbers.registers) {
        return Err(Refusal::TooLarge(numbers.gates.len() + i));
    }
    if let Some(i) = first_large(numbers.times) {
        let before = numbers.gates.len() + numbers.registers.len();
        return Err(Refusal::TooLarge(before + i));
    }
    Ok(())
}

// Numbers 4 to 7: that each gate comes after its inputs and has a table and delays that are in order, that each register
// takes a signal of the circuit, and that clock and output times are in order.
fn look_at_rows(numbers: Numbers<'_>) -> Result<(), Refusal>
    requires { lent numbers MetUpTo 3 }
    ensures { MatchResult result (λ _. lent numbers.entry MetUpTo 7) (λ e. lent numbers.entry FirstRefusal e) }
{
    if let Some(k) = first_misplaced(numbers) {
        return Err(Refusal::BadGate(k));
    }
    if let Some(k) = first_unranged(numbers) {
        return Err(Refusal::BadDelay(k));
    }
    if let Some(r) = first_untied(numbers) {
        return Err(Refusal::BadRegister(r));
    }
    if numbers.times[1] > numbers.times[2] {
        return Err(Refusal::BadOutput);
    }
    Ok(())
}

// Whether three lists of numbers are a circuit, or the first reason why they are not. They are lent as three slices, as C
// lends them.
pub fn look(gates: &[u32], registers: &[u32], times: &[u32]) -> Result<(), Refusal>
    ensures { MatchResult result (λ _. Whole gates.now registers.now times.now) (λ e. FirstRefusal gates.now registers.now times.now e) }
{
    let numbers = Numbers {
        gates,
        registers,
        times,
    };
    look_at_counts(numbers)?;
    look_at_sizes(numbers)?;
    look_at_rows(numbers)
}

// What is turned away is not whole, and the first reason is one and the same.
pub fn refusals_are_exact() -> u8
    ensures { RefusalsAreExact }
{
    0
}
