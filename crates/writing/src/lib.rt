// Circuits, written as text.
#![tactic(auto)]

ghost use Rattle.std.specs.Prelude.{◌≡◌, ◌++◌, codes, OnOk, IfOk};
ghost use Rattle.std.specs.List.{list_all};
ghost use Rattle.std.specs.String.{string_bytes};
ghost use Rattle.circuit.specs.Checked.{of, gates_of, registers_of};
ghost use Rattle.circuit.specs.Lent.{gate_in, register_in};
ghost use Rattle.writing.specs.declared.Unwritten.TheVariants.{Memory};
ghost use Rattle.writing.specs.Again.{IsReadAgain, WrittenIsRead, NamesAreNameable, CutShort};
ghost use Rattle.writing.specs.Written.{line_of, rows, title_of, times_line, register_line, gate_line, written, nameable, IsTitled, IsWritten};

use circuit::{Circuit, Gate, Register};
use std::alloc::{AllocError, Global};
use std::fmt::Write;

// Why a circuit was not written.
#[derive(Clone, Copy, PartialEq, Debug)]
pub enum Unwritten {
    // Its name could not be read again.
    Name,
    Memory,
}

impl From<AllocError> for Unwritten {
    ghost from_gives = { λ _ e. e ≡ Memory };

    fn from(_: AllocError) -> Unwritten {
        Unwritten::Memory
    }
}

// Whether a name could be read again: printable ASCII without a number sign.
fn is_nameable(name: &[u8]) -> bool
    ensures { result ≡ list_all nameable name.now }
{
    name.iter().all(|b| b.is_ascii_graphic() && *b != b'#')
}

// A name as text, None where it could not be read again.
fn titled(name: &[u8]) -> Option<&str>
    ensures { IsTitled name.now result }
{
    if is_nameable(name) {
        str::from_utf8(name).ok()
    } else {
        None
    }
}

// The line that begins a circuit; an empty name is left out.
fn put_title(text: &mut String, name: &str) -> Result<(), AllocError>
    ensures { OnOk result (string_bytes text.new ≡ string_bytes text.old ++ line_of (codes "circuit") (title_of name.now)) }
{
    if name.is_empty() {
        return text.push_str("circuit\n");
    }
    write!(text, "circuit {name}\n")
}

fn put_times(text: &mut String, circuit: Circuit<'_>) -> Result<(), AllocError>
    ensures { OnOk result (string_bytes text.new ≡ string_bytes text.old ++ times_line circuit.entry.times.now) }
{
    write!(
        text,
        "times {} {} {} {} {}\n",
        circuit.period(),
        circuit.output_early(),
        circuit.output_late(),
        circuit.setup(),
        circuit.hold(),
    )
}

fn put_register(text: &mut String, register: Register) -> Result<(), AllocError>
    ensures { OnOk result (string_bytes text.new ≡ string_bytes text.old ++ register_line register) }
{
    let Register {
        signal,
        early,
        late,
    } = register;
    write!(text, "register {signal} {early} {late}\n")
}

fn put_gate(text: &mut String, gate: Gate) -> Result<(), AllocError>
    ensures { OnOk result (string_bytes text.new ≡ string_bytes text.old ++ gate_line gate) }
{
    write!(
        text,
        "gate {} {} {} {} {} {} {}\n",
        gate.one,
        gate.two,
        fields::name_of(gate.table),
        gate.least_one,
        gate.greatest_one,
        gate.least_two,
        gate.greatest_two,
    )
}

// A line for each register.
fn put_registers(text: &mut String, circuit: Circuit<'_>) -> Result<(), AllocError>
    ensures { OnOk result (string_bytes text.new ≡ string_bytes text.old ++ rows (λ r. register_line (register_in circuit.entry.registers.now r)) (registers_of circuit.entry)) }
{
    for row in circuit.registers() {
        put_register(text, Register::from(*row))?;
    }
    Ok(())
}

// A line for each gate.
fn put_gates(text: &mut String, circuit: Circuit<'_>) -> Result<(), AllocError>
    ensures { OnOk result (string_bytes text.new ≡ string_bytes text.old ++ rows (λ k. gate_line (gate_in circuit.entry.gates.now k)) (gates_of circuit.entry)) }
{
    for row in circuit.gates() {
        put_gate(text, Gate::from(*row))?;
    }
    Ok(())
}

// The text of a circuit.
fn put(text: &mut String, name: &str, circuit: Circuit<'_>) -> Result<(), AllocError>
    ensures { OnOk result (string_bytes text.new ≡ string_bytes text.old ++ of circuit.entry (written name.now)) }
{
    put_title(text, name)?;
    put_times(text, circuit)?;
    put_registers(text, circuit)?;
    put_gates(text, circuit)?;
    text.push_str("end\n")?;
    Ok(())
}

// The text of a circuit, which gives its name and its numbers when it is read again. A name that could not be read again
// is turned away.
#[tactic(auto, using(crate::proofs::AgainLaws::read_alone))]
pub fn write(heap: Global, name: &[u8], circuit: Circuit<'_>) -> Result<String, Unwritten>
    ensures written { IsWritten name.now circuit.entry result }
    ensures again { IfOk result (λ text. IsReadAgain name.now circuit.entry (string_bytes text)) }
{
    let Some(name) = titled(name) else {
        return Err(Unwritten::Name);
    };
    let mut text = String::new(heap);
    put(&mut text, name, circuit)?;
    Ok(text)
}

// What is written is read again.
pub fn written_is_read() -> u8
    ensures { WrittenIsRead }
{
    0
}

// A circuit that was read can be written under its name.
pub fn names_are_nameable() -> u8
    ensures { NamesAreNameable }
{
    0
}

// A text that is cut short is no circuit.
pub fn cut_short() -> u8
    ensures { CutShort }
{
    0
}
