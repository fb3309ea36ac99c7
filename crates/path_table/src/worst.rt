// Tables of the worst paths.
use crate::steps::step_on;
use crate::wording::{put_head, put_row, put_source};
use arrival::Edge;
use circuit::{Circuit, Register};
use fields::name_of;
use std::alloc::AllocError;
use std::fmt;
use std::fmt::Write;
use worst_paths::{Figures, TimingPath, figures_of};

// A path's rank, times and signals.
fn put_listed(
    out: &mut String,
    circuit: Circuit<'_>,
    rank: usize,
    path: &TimingPath,
) -> Result<(), AllocError> {
    let (slack, register) = (path.slack, path.register);
    let (arrival, required, source) = (path.arrival, path.required, path.source);
    write!(
        out,
        "  {rank:>4}  {slack:>12}  {register:>8}  {arrival:>12}  {required:>12}  {source}"
    )?;
    for pin in path.pins.iter() {
        let signal = circuit.register_count().saturating_add(pin.gate);
        write!(out, ", {signal}")?;
    }
    out.push_str("\n")
}

// The figures of all registers, and an empty line.
fn put_figures(out: &mut String, circuit: Circuit<'_>, edge: Edge) -> Result<(), AllocError> {
    let Figures {
        violations,
        worst,
        total_negative,
    } = figures_of(circuit, edge);
    let registers = circuit.register_count();
    let slack = worst.margin;
    writeln!(
        out,
        "  negative slack at {violations} of {registers} registers, worst slack {slack}, total negative slack {total_negative}\n"
    )
}

/// A table of the worst paths, in the order in which they are listed, and below it how many registers have a slack below 0, the worst
/// slack, and the sum of those below 0.
pub fn put_worst(
    out: &mut String,
    circuit: Circuit<'_>,
    edge: Edge,
    paths: &[TimingPath],
) -> fmt::Result {
    let kind = match edge {
        Edge::Late => "setup",
        Edge::Early => "hold",
    };
    writeln!(
        out,
        "  worst paths, {kind}\n  rank         slack  register       arrival      required  path"
    )?;
    for (i, path) in paths.iter().enumerate() {
        put_listed(out, circuit, i.saturating_add(1), path)?;
    }
    put_figures(out, circuit, edge)?;
    Ok(())
}

// The steps of a path, from its source on.
fn put_pins(out: &mut String, circuit: Circuit<'_>, edge: Edge, path: &TimingPath) -> fmt::Result {
    let mut time = put_source(out, circuit, edge, path.source)?;
    for pin in path.pins.iter() {
        let Some(step) = step_on(circuit, edge, pin.gate, pin.second, time) else {
            return Err(fmt::Error);
        };
        time = step.time;
        let input = if step.second { "2" } else { "1" };
        put_row(
            out,
            step.signal,
            name_of(step.table),
            input,
            step.delay,
            time,
        )?;
    }
    Ok(())
}

// The three times at the end of a path, and an empty line.
fn put_times(out: &mut String, path: &TimingPath) -> Result<(), AllocError> {
    let (arrival, required, slack) = (path.arrival, path.required, path.slack);
    writeln!(
        out,
        "    arrival  {arrival:>49}\n    required {required:>49}\n    slack    {slack:>49}\n"
    )
}

/// A table for each of the worst paths, step by step: each time is the sum of the delays above it.
pub fn put_steps(
    out: &mut String,
    circuit: Circuit<'_>,
    edge: Edge,
    paths: &[TimingPath],
) -> fmt::Result {
    for (i, path) in paths.iter().enumerate() {
        let Some(row) = circuit.registers().get(path.register) else {
            return Err(fmt::Error);
        };
        let rank = i.saturating_add(1);
        writeln!(out, "  path {rank}")?;
        put_head(out, circuit, edge, path.register, Register::from(*row))?;
        put_pins(out, circuit, edge, path)?;
        put_times(out, path)?;
    }
    Ok(())
}
