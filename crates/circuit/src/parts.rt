// What a circuit has: gates, registers, signals, times.
ghost use Rattle.std.specs.Prelude.{◌≡◌, ℕ, ◌<◌, [], length, Ok, slice_index_or};
ghost use Rattle.circuit.specs.Checked.{gates_of, registers_of, signals_of, IsChecked};
ghost use Rattle.circuit.specs.Lent.{gate_in, gate_of, register_in, register_of, period, output_early, output_late, setup, hold};
ghost use Rattle.circuit.specs.Whole.{Whole};

use crate::circuit::Circuit;
use crate::numbers::Numbers;

impl<'a> Circuit<'a> {
    // The circuit of numbers that were looked at.
    pub fn new(gates: &'a [u32], registers: &'a [u32], times: &'a [u32]) -> Self
        requires { Whole gates.now registers.now times.now }
        ensures { (result.gates.now ≡ gates.now) × (result.registers.now ≡ registers.now) × (result.times.now ≡ times.now) }
    {
        Circuit {
            gates,
            registers,
            times,
        }
    }

    // Its numbers, as they were lent.
    pub fn numbers(self) -> Numbers<'a>
        ensures { IsChecked result (Ok self.entry) }
    {
        Numbers {
            gates: self.gates,
            registers: self.registers,
            times: self.times,
        }
    }

    // The numbers of its gates, seven by seven.
    pub fn gates(self) -> &'a [[u32; 7]]
        ensures count { length result.now ≡ gates_of self.entry }
        ensures each { (k : ℕ) → k < gates_of self.entry → gate_of (slice_index_or result.now k []) ≡ gate_in self.entry.gates.now k }
    {
        self.numbers().gates()
    }

    // The numbers of its registers, three by three.
    pub fn registers(self) -> &'a [[u32; 3]]
        ensures count { length result.now ≡ registers_of self.entry }
        ensures each { (r : ℕ) → r < registers_of self.entry → register_of (slice_index_or result.now r []) ≡ register_in self.entry.registers.now r }
    {
        self.numbers().registers()
    }

    pub fn gate_count(self) -> usize
        ensures { result ≡ gates_of self.entry }
    {
        self.gates().len()
    }

    pub fn register_count(self) -> usize
        ensures { result ≡ registers_of self.entry }
    {
        self.registers().len()
    }

    // How many signals it has: its registers' outputs, and then its gates'.
    pub fn signal_count(self) -> usize
        ensures { result ≡ signals_of self.entry }
    {
        self.register_count() + self.gate_count()
    }

    pub fn period(self) -> u32
        ensures { result ≡ period self.entry.times.now }
    {
        self.times[0]
    }

    // The earliest that a register's output changes after its clock.
    pub fn output_early(self) -> u32
        ensures { result ≡ output_early self.entry.times.now }
    {
        self.times[1]
    }

    // The latest that it does.
    pub fn output_late(self) -> u32
        ensures { result ≡ output_late self.entry.times.now }
    {
        self.times[2]
    }

    // How long before its clock a register needs its input to keep still.
    pub fn setup(self) -> u32
        ensures { result ≡ setup self.entry.times.now }
    {
        self.times[3]
    }

    // How long after its clock it does.
    pub fn hold(self) -> u32
        ensures { result ≡ hold self.entry.times.now }
    {
        self.times[4]
    }
}
