// A clocked circuit that was looked at and is whole.
ghost use Rattle.std.specs.Prelude.{ℕ, ◌+◌, ◌<◌};
ghost use Rattle.circuit.specs.Lent.{gate_count, register_count, signal_count};
ghost use Rattle.circuit.specs.Whole.{Shaped, SomeRegisters, FewGates, Small, Placed, Ranged, Tied, OutputOrdered};

// The numbers as lent, and that they are a circuit. A value is made only where this is known, so code that has one
// indexes its numbers without a test.
#[derive(Clone, Copy)]
pub struct Circuit<'a> {
    pub gates: &'a [u32],
    pub registers: &'a [u32],
    pub times: &'a [u32],
    ghost shaped: { Shaped gates.now registers.now times.now },
    ghost some: { SomeRegisters registers.now },
    ghost few: { FewGates gates.now },
    ghost small: { (p : ℕ) → Small gates.now registers.now times.now p },
    ghost placed: { (k : ℕ) → k < gate_count gates.now → Placed (register_count registers.now) gates.now k },
    ghost ranged: { (k : ℕ) → k < gate_count gates.now → Ranged gates.now k },
    ghost tied: { (r : ℕ) → r < register_count registers.now → Tied (signal_count gates.now registers.now) registers.now r },
    ghost ordered: { OutputOrdered times.now },
}
