// The numbers of a circuit as they are lent.
ghost use Rattle.std.specs.Prelude.{◌≡◌, ℕ, ◌<◌, [], length, slice_index_or};
ghost use Rattle.circuit.specs.Checked.{IsChecked};
ghost use Rattle.circuit.specs.Lent.{gate_count, gate_in, gate_of, register_count, register_in, register_of};

use crate::checks::look;
use crate::circuit::Circuit;
use crate::refusal::Refusal;
use crate::rows::rows;

// Seven numbers for each gate, three for each register, and five for all, whatever they are.
#[derive(Clone, Copy)]
pub struct Numbers<'a> {
    pub gates: &'a [u32],
    pub registers: &'a [u32],
    pub times: &'a [u32],
}

impl<'a> Numbers<'a> {
    // The numbers of gates, seven by seven; fewer than seven at the end are of none.
    pub fn gates(self) -> &'a [[u32; 7]]
        ensures count { length result.now ≡ gate_count self.entry.gates.now }
        ensures each { (k : ℕ) → k < gate_count self.entry.gates.now → gate_of (slice_index_or result.now k []) ≡ gate_in self.entry.gates.now k }
    {
        rows(self.gates)
    }

    // The numbers of registers, three by three; fewer than three at the end are of none.
    pub fn registers(self) -> &'a [[u32; 3]]
        ensures count { length result.now ≡ register_count self.entry.registers.now }
        ensures each { (r : ℕ) → r < register_count self.entry.registers.now → register_of (slice_index_or result.now r []) ≡ register_in self.entry.registers.now r }
    {
        rows(self.registers)
    }
}

impl<'a> TryFrom<Numbers<'a>> for Circuit<'a> {
    type Error = Refusal;

    ghost try_from_gives = { IsChecked };

    fn try_from(numbers: Numbers<'a>) -> Result<Self, Refusal> {
        look(numbers.gates, numbers.registers, numbers.times)?;
        Ok(Circuit::new(numbers.gates, numbers.registers, numbers.times))
    }
}
