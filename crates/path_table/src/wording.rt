// The lines of a table.
use crate::steps::step;
use arrival::{Arrivals, Edge};
use circuit::{Circuit, Register};
use fields::name_of;
use slack::Ends;
use std::alloc::AllocError;
use std::fmt;
use std::fmt::Write;

// What is told of the sources of paths and of gates: the columns are as wide as the largest circuit's numbers.
pub(crate) fn put_row(
    out: &mut String,
    signal: usize,
    table: &str,
    input: &str,
    delay: u32,
    time: u64,
) -> Result<(), AllocError> {
    writeln!(
        out,
        "    {signal:>6}  {table:<19}  {input:>5}  {delay:>8}  {time:>12}"
    )
}

// The sum of a register's setup, and what stands in each column.
fn put_setup(
    out: &mut String,
    register: usize,
    period: u32,
    early: u32,
    setup: u32,
) -> Result<(), AllocError> {
    writeln!(
        out,
        "  register {register}, setup: latest time, at most period {period} + early {early} - setup {setup}
    signal  table                input  greatest          time"
    )
}

// The same of its hold.
fn put_hold(out: &mut String, register: usize, late: u32, hold: u32) -> Result<(), AllocError> {
    writeln!(
        out,
        "  register {register}, hold: earliest time, at least late {late} + hold {hold} + 1
    signal  table                input     least          time"
    )
}

// What is looked at, what it has to be, and what stands in each column.
pub(crate) fn put_head(
    out: &mut String,
    circuit: Circuit<'_>,
    edge: Edge,
    register: usize,
    row: Register,
) -> Result<(), AllocError> {
    match edge {
        Edge::Late => put_setup(out, register, circuit.period(), row.early, circuit.setup()),
        Edge::Early => put_hold(out, register, row.late, circuit.hold()),
    }
}

// Where a path begins: when the clock comes to the register, and how long its output takes. Answers when it changes.
pub(crate) fn put_source(
    out: &mut String,
    circuit: Circuit<'_>,
    edge: Edge,
    register: usize,
) -> Result<u64, AllocError> {
    let Some(row) = circuit.registers().get(register) else {
        return Ok(0);
    };
    let Register { early, late, .. } = Register::from(*row);
    let (clock, output) = match edge {
        Edge::Late => (late, circuit.output_late()),
        Edge::Early => (early, circuit.output_early()),
    };
    let shown = u64::from(clock) + u64::from(output);
    put_row(out, register, "clock", "", clock, u64::from(clock))?;
    put_row(out, register, "output", "", output, shown)?;
    Ok(shown)
}

// The path, as it was written: its source, then of each gate its signal and the input.
pub(crate) fn put_path(
    out: &mut String,
    a: Arrivals<'_, '_>,
    edge: Edge,
    path: &[u32],
) -> fmt::Result {
    let Some((source, gates)) = path.split_first() else {
        return Ok(());
    };
    put_source(out, a.circuit, edge, *source as usize)?;
    for [signal, second] in gates.as_chunks::<2>().0 {
        let Some(step) = step(a, edge, *signal as usize, *second == 1) else {
            return Err(fmt::Error);
        };
        let table = name_of(step.table);
        let input = if step.second { "2" } else { "1" };
        put_row(out, step.signal, table, input, step.delay, step.time)?;
    }
    Ok(())
}

// The three times at the end, and an empty line.
pub(crate) fn put_ends(out: &mut String, ends: Ends) -> Result<(), AllocError> {
    let Ends {
        arrival,
        required,
        margin,
    } = ends;
    writeln!(
        out,
        "    arrival  {arrival:>49}\n    required {required:>49}\n    margin   {margin:>49}\n"
    )
}
