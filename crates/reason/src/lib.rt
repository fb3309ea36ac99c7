// Why numbers are turned away: the first refusal that applies, and what exactly is wrong.
#![tactic(auto)]

ghost use Rattle.std.specs.Prelude.{◌≡◌, ◌<◌, length, MatchOption};
ghost use Rattle.circuit.specs.Checked.{lent};
ghost use Rattle.circuit.specs.Lent.{gate_count, register_count, signal_count};
ghost use Rattle.circuit.specs.Whole.{Whole, Shaped, Placed, Ranged, Tied, Small, OutputOrdered};
ghost use Rattle.circuit.specs.Refused.{FirstRefusal};
ghost use Rattle.circuit.specs.declared.refusal.Refusal.TheVariants.{TooLarge, BadGate, BadDelay, BadRegister, BadOutput};
ghost use Rattle.reason.specs.Reason.{TrueOf, TrueOfGate, TrueOfRegister, TrueOfTimes};

use circuit::{Gate, Numbers, Refusal, Register};
use detail::{Detail, GateDetail, Input, Large, RegisterDetail, TimesDetail};

mod column;

// A refusal, and what exactly is wrong.
#[derive(Clone, Copy)]
pub struct Reason {
    pub refusal: Refusal,
    pub detail: Detail,
}

// The number at `p` in the row of all, which is too large. The list of refusals counts such places by index.
fn large(numbers: Numbers<'_>, p: usize) -> Detail
    requires shaped { lent numbers Shaped }
    requires large { lent numbers Small p → ⊥ }
    ensures { lent numbers.entry TrueOf (TooLarge p) result }
{
    let Numbers {
        gates,
        registers,
        times,
    } = numbers;
    if p < gates.len() {
        let column = column::of_gate(p % 7);
        let value = gates[p];
        return Detail::Gate(p / 7, GateDetail::Large(Large { column, value }));
    }
    let q = p - gates.len();
    if q < registers.len() {
        let column = column::of_register(q % 3);
        let value = registers[q];
        return Detail::Register(q / 3, RegisterDetail::Large(Large { column, value }));
    }
    let i = q - registers.len();
    let column = column::of_times(i);
    let value = times[i];
    Detail::Times(TimesDetail::Large(Large { column, value }))
}

// A gate's input or table that is wrong.
fn gate(numbers: Numbers<'_>, k: usize) -> GateDetail
    requires within { k < gate_count numbers.gates.now }
    requires wrong { Placed (register_count numbers.registers.now) numbers.gates.now k → ⊥ }
    ensures { TrueOfGate numbers.entry.gates.now numbers.entry.registers.now (BadGate k) k result }
{
    let below = numbers.registers().len() + k;
    let Gate {
        one,
        two,
        table,
        ..
    } = Gate::from(numbers.gates()[k]);
    if one as usize >= below {
        return GateDetail::NotBefore {
            input: Input::First,
            signal: one,
        };
    }
    if two as usize >= below {
        return GateDetail::NotBefore {
            input: Input::Second,
            signal: two,
        };
    }
    GateDetail::Table(table)
}

// A gate's delays that are out of order.
fn delay(numbers: Numbers<'_>, k: usize) -> GateDetail
    requires within { k < gate_count numbers.gates.now }
    requires wrong { Ranged numbers.gates.now k → ⊥ }
    ensures { TrueOfGate numbers.entry.gates.now numbers.entry.registers.now (BadDelay k) k result }
{
    let gate = Gate::from(numbers.gates()[k]);
    if gate.least_one > gate.greatest_one {
        return GateDetail::Delay {
            input: Input::First,
            least: gate.least_one,
            greatest: gate.greatest_one,
        };
    }
    GateDetail::Delay {
        input: Input::Second,
        least: gate.least_two,
        greatest: gate.greatest_two,
    }
}

// A register's signal that is past the circuit, or its times that are out of order.
fn register(numbers: Numbers<'_>, r: usize) -> RegisterDetail
    requires within { r < register_count numbers.registers.now }
    requires wrong { Tied (signal_count numbers.gates.now numbers.registers.now) numbers.registers.now r → ⊥ }
    ensures { TrueOfRegister numbers.entry.gates.now numbers.entry.registers.now (BadRegister r) r result }
{
    let signals = numbers.registers().len() + numbers.gates().len();
    let Register {
        signal,
        early,
        late,
    } = Register::from(numbers.registers()[r]);
    if signal as usize >= signals {
        return RegisterDetail::Signal(signal);
    }
    RegisterDetail::Clock { early, late }
}

// The output times, which are out of order. They are read by index, since those with a name are of a Circuit, and these
// numbers are none.
fn output(numbers: Numbers<'_>) -> TimesDetail
    requires five { length numbers.times.now ≡ 5 }
    requires wrong { OutputOrdered numbers.times.now → ⊥ }
    ensures { lent numbers.entry TrueOfTimes BadOutput result }
{
    TimesDetail::Output {
        earliest: numbers.times[1],
        latest: numbers.times[2],
    }
}

// What exactly is wrong with numbers that a refusal turns away.
#[tactic(auto, using(circuit::proofs::Order::shaped_before))]
fn detail(numbers: Numbers<'_>, refusal: Refusal) -> Detail
    requires { lent numbers FirstRefusal refusal }
    ensures { lent numbers.entry TrueOf refusal result }
{
    match refusal {
        Refusal::GateNumbers => Detail::GateNumbers(numbers.gates.len()),
        Refusal::RegisterNumbers => Detail::RegisterNumbers(numbers.registers.len()),
        Refusal::TimeNumbers => Detail::TimeNumbers(numbers.times.len()),
        Refusal::RegisterCount => Detail::Registers(numbers.registers().len()),
        Refusal::GateCount => Detail::Gates(numbers.gates().len()),
        Refusal::TooLarge(p) => large(numbers, p),
        Refusal::BadGate(k) => Detail::Gate(k, gate(numbers, k)),
        Refusal::BadDelay(k) => Detail::Gate(k, delay(numbers, k)),
        Refusal::BadRegister(r) => Detail::Register(r, register(numbers, r)),
        Refusal::BadOutput => Detail::Times(output(numbers)),
        // Of what is asked for, of lent room, or of the bench: never of a circuit's numbers.
        Refusal::NoSignal(_)
        | Refusal::NoRoom(_)
        | Refusal::OutOfBounds(_)
        | Refusal::NoPeriod
        | Refusal::NoMoment => unreachable!(),
    }
}

// Why numbers are turned away, or None where they are a circuit.
pub fn explain(gates: &[u32], registers: &[u32], times: &[u32]) -> Option<Reason>
    ensures { MatchOption result
        (Whole gates.now registers.now times.now)
        (λ x. FirstRefusal gates.now registers.now times.now x.refusal
        × TrueOf gates.now registers.now times.now x.refusal x.detail) }
{
    let Err(refusal) = circuit::look(gates, registers, times) else {
        return None;
    };
    let numbers = Numbers {
        gates,
        registers,
        times,
    };
    let detail = detail(numbers, refusal);
    Some(Reason { refusal, detail })
}
