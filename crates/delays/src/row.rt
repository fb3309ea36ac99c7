// The lines of delays and the like, each by itself.
ghost use Rattle.std.specs.Prelude.{◌≡◌, false, OnOk, [], ◌∷◌, ◌++◌, vec_items};
ghost use Rattle.lines.specs.Words.{words};
ghost use Rattle.fields.specs.Fields.{field};
ghost use Rattle.fields.specs.declared.line.Line.TheVariants.{Delay};
ghost use Rattle.delays.specs.Row.{and_then, numbers, number_after, bit_of, bits, entry_after, bit_after, gate_of, delay_after};
ghost use Rattle.delays.specs.Meaning.{Valued};

use fields::{Expected, Line};
use lines::Words;
use script::Entry;
use std::alloc::{AllocError, Global};

// A place past the gates of every circuit.
const NO_GATE: u32 = u32::MAX;

// Just N numbers, after the first word of a line.
#[tactic(auto, unfolding(crate::specs::Row::numbers))]
fn numbers<const N: usize>(text: &[u8], line: Line) -> Result<[u32; N], Expected>
    ensures { result ≡ numbers line N (words text.now) }
{
    fields::read::<N>(text, false, None)?.ok_or(Expected::After(line))
}

// Just one.
#[tactic(auto, unfolding(crate::specs::Row::number_after))]
pub(crate) fn number(text: &[u8], line: Line) -> Result<u32, Expected>
    ensures { result ≡ number_after line (words text.now) }
{
    let [number] = numbers::<1>(text, line)?;
    Ok(number)
}

// The same, for a seed.
pub(crate) fn seed(text: &[u8], line: Line) -> Result<u64, Expected>
    ensures { result ≡ number_after line (words text.now) }
{
    Ok(u64::from(number(text, line)?))
}

// The bit that a number is.
fn bit(number: u32) -> Result<bool, Expected>
    ensures { result ≡ bit_of number }
{
    match number {
        0 => Ok(false),
        1 => Ok(true),
        _ => Err(Expected::Bit),
    }
}

// The bit that a word is.
fn word_bit(word: &[u8]) -> Result<bool, Expected>
    ensures { result ≡ and_then (field false false word.now) bit_of }
{
    bit(lines::value(word)?)
}

// One bit more.
fn push(filled: &mut Vec<bool>, bit: bool) -> Result<(), AllocError>
    ensures { OnOk result (vec_items filled.new ≡ vec_items filled.old ++ (bit ∷ [])) }
{
    Ok(filled.push(bit)?)
}

// Adds the bit of each word, of which there have to be as many as registers.
fn fill(filled: &mut Vec<bool>, text: &[u8], registers: usize) -> Result<(), Expected>
    requires { vec_items filled.old ≡ [] }
    ensures { Valued (λ _. vec_items filled.new) (bits registers (words text.now)) result }
{
    let mut words = Words::new(text);
    while let Some(word) = words.next() {
        if filled.len() == registers {
            return Err(Expected::After(Line::Start));
        }
        push(filled, word_bit(word)?)?;
    }
    if filled.len() < registers {
        return Err(Expected::After(Line::Start));
    }
    Ok(())
}

// A bit for each register.
pub(crate) fn bits(heap: Global, text: &[u8], registers: usize) -> Result<Vec<bool>, Expected>
    ensures { Valued (λ v. vec_items v) (bits registers (words text.now)) result }
{
    let mut bits = Vec::new(heap);
    fill(&mut bits, text, registers)?;
    Ok(bits)
}

// Moment or cycle, register, and value.
#[tactic(auto, unfolding(crate::specs::Row::entry_after))]
pub(crate) fn entry(text: &[u8], at: usize, line: Line) -> Result<Entry, Expected>
    ensures { result ≡ entry_after at line (words text.now) }
{
    let [when, who, one] = numbers::<3>(text, line)?;
    Ok(Entry {
        line: at,
        when,
        who,
        one,
        two: 0,
    })
}

// The same where there has to be such a register, and the value is a bit.
#[tactic(auto, unfolding(crate::specs::Row::bit_after))]
pub(crate) fn bit_entry(
    text: &[u8],
    at: usize,
    line: Line,
    registers: usize,
) -> Result<Entry, Expected>
    ensures { result ≡ bit_after registers at line (words text.now) }
{
    let entry = entry(text, at, line)?;
    if entry.who as usize >= registers {
        return Err(Expected::Register);
    }
    bit(entry.one)?;
    Ok(entry)
}

// The gate whose output a signal is. One that is no gate's is out of bounds, as a gate past the last is.
fn gate_of(signal: u32, registers: usize) -> u32
    ensures { result ≡ gate_of registers signal }
{
    match (signal as usize).checked_sub(registers) {
        Some(gate) => gate as u32,
        None => NO_GATE,
    }
}

// Moment, signal, and two delays.
#[tactic(auto, unfolding(crate::specs::Row::delay_after))]
pub(crate) fn delay(text: &[u8], at: usize, registers: usize) -> Result<Entry, Expected>
    ensures { result ≡ delay_after registers at (words text.now) }
{
    let [when, signal, one, two] = numbers::<4>(text, Line::Delay)?;
    Ok(Entry {
        line: at,
        when,
        who: gate_of(signal, registers),
        one,
        two,
    })
}
