// bench: lets a circuit go through time, moment by moment, and looks at every register after every cycle.
#![tactic(auto)]

use answer::{Refused, Title, TurnedAway};
use circuit::{Circuit, Refusal};
use cli::{Asked, BenchOptions, Told, bench_options};
use clocks::Bench;
use given::{Flaw, is_read, read_circuit, read_script};
use going::make_runs;
use halt::{Halt, Trouble};
use input::{Escaped, arguments};
use outcome::{Outcome, TROUBLE};
use report::{Ended, OnLine, Why};
use script::Script;
use std::io;
use std::process::ExitCode;
use text::Listing;

mod given;
mod going;
mod halt;
mod outcome;
mod progress;
mod report;
mod vcd;

// The flaw of a file is told.
fn tell(rt: &HostRuntime, path: &str, flaw: Flaw) -> io::Result<Outcome> {
    eprintln!(rt; "bench: {}:{flaw}", Escaped(path))?;
    Ok(Outcome::Unsound)
}

// The line on which a circuit with what it is told is turned away.
fn tell_refusal(
    rt: &HostRuntime,
    name: &[u8],
    bench: Bench<'_>,
    refusal: Refusal,
) -> io::Result<Outcome> {
    let why = Why::of(bench, refusal);
    let refused = TurnedAway { refusal, why };
    println!(rt; "{}turned away by {refused}{}", Title(name), OnLine(why))?;
    Ok(Outcome::TurnedAway)
}

// Why a run did not come to its end.
fn tell_halt(
    rt: &HostRuntime,
    task: &BenchOptions<'_>,
    name: &[u8],
    bench: Bench<'_>,
    halt: Halt,
) -> Result<Outcome, Trouble> {
    match halt {
        Halt::Refused(refusal) => Ok(tell_refusal(rt, name, bench, refusal)?),
        Halt::Unwritten(e) => Ok(tell(rt, task.vcd.unwrap_or(""), Flaw::Unusable(e))?),
        Halt::Trouble(trouble) => Err(trouble),
    }
}

// What one run, or some, came to.
fn tell_end(rt: &HostRuntime, ended: Ended) -> io::Result<Outcome> {
    println!(rt; "{ended}")?;
    Ok(ended.outcome())
}

// The circuit goes with what it is told.
fn go(
    rt: &HostRuntime,
    task: &BenchOptions<'_>,
    name: &[u8],
    circuit: Circuit<'_>,
    script: &mut Script,
) -> Result<Outcome, Trouble> {
    match make_runs(rt, task, circuit, script) {
        Ok(ended) => Ok(tell_end(rt, ended)?),
        Err(halt) => tell_halt(rt, task, name, Bench { circuit, script }, halt),
    }
}

// What is told to the circuit is read, and it goes.
fn read_and_go(
    rt: &HostRuntime,
    task: &BenchOptions<'_>,
    name: &[u8],
    circuit: Circuit<'_>,
) -> Result<Outcome, Trouble> {
    match read_script(rt, task, circuit) {
        Ok(mut script) => go(rt, task, name, circuit, &mut script),
        Err(flaw) => Ok(tell(rt, task.delays, flaw)?),
    }
}

// The line on which a circuit that was read is turned away.
fn tell_turned_away(rt: &HostRuntime, name: &[u8], refused: Refused) -> Result<Outcome, Trouble> {
    let line = answer::turned_away(rt.alloc(), name, refused)?;
    rt.write_all(line.as_bytes())?;
    Ok(Outcome::TurnedAway)
}

// A circuit that was read is turned away, or goes.
fn answer_for(
    rt: &HostRuntime,
    task: &BenchOptions<'_>,
    listing: &Listing,
) -> Result<Outcome, Trouble> {
    let name = &listing.draft.name;
    match answer::circuit(listing) {
        Ok(circuit) => read_and_go(rt, task, name, circuit),
        Err(refused) => tell_turned_away(rt, name, refused),
    }
}

fn bench(rt: &HostRuntime, task: &BenchOptions<'_>) -> Result<Outcome, Trouble> {
    if let Some(vcd) = task.vcd {
        if is_read(rt, task, vcd) {
            return Ok(tell(rt, vcd, Flaw::Overwrites)?);
        }
    }
    match read_circuit(rt, task.circuit) {
        Ok(listing) => answer_for(rt, task, &listing),
        Err(flaw) => Ok(tell(rt, task.circuit, flaw)?),
    }
}

// Prints what stands in the place of what the program does.
fn print_told(rt: &HostRuntime, told: &Told) -> io::Result<ExitCode> {
    if told.error {
        eprint!(rt; "{}", told.text)?;
    } else {
        print!(rt; "{}", told.text)?;
    }
    Ok(ExitCode::from(told.status))
}

// Does what the arguments ask for.
fn obey(rt: &HostRuntime, args: &[String]) -> Result<ExitCode, Trouble> {
    match bench_options(rt.alloc(), args)? {
        Asked::Do(task) => Ok(bench(rt, &task)?.status(task.exit_zero)),
        Asked::Tell(told) => Ok(print_told(rt, &told)?),
    }
}

fn run(rt: &HostRuntime) -> Result<ExitCode, Trouble> {
    match arguments(rt) {
        Ok(args) => obey(rt, &args),
        Err(e) => Err(Trouble::Arguments(e)),
    }
}

// What ends the program is told, unless nobody reads on what it prints.
fn tell_trouble(rt: &HostRuntime, trouble: Trouble) -> ExitCode {
    if !trouble.is_closed_pipe() {
        let _ = eprintln!(rt; "bench: {trouble}");
    }
    ExitCode::from(TROUBLE)
}

fn main(rt: HostRuntime) -> ExitCode {
    match run(&rt) {
        Ok(status) => status,
        Err(trouble) => tell_trouble(&rt, trouble),
    }
}
