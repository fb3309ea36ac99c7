// pass: passes the circuits of files, or names what stands in their way.
#![tactic(auto)]

use cli::{Asked, PassOptions, Told, pass_options};
use input::{Escaped, arguments};
use passing::{Flaw, pass_reader};
use std::process::ExitCode;
use std::{fs, io};

mod passing;
mod register;
mod source;

// The status where something could not be done.
const TROUBLE: u8 = 2;

// What was found, from best to worst.
#[derive(Clone, Copy, PartialEq, Eq, PartialOrd, Ord)]
enum Outcome {
    // Every circuit was passed; or had a shortest period, where this is asked for.
    Passed,
    // A circuit was not.
    NotPassed,
    // A file could not be read, has a fault, or has no circuit.
    Unsound,
}

impl Outcome {
    fn of(passed: bool) -> Outcome {
        if passed {
            Outcome::Passed
        } else {
            Outcome::NotPassed
        }
    }

    fn status(self, exit_zero: bool) -> ExitCode {
        match self {
            Outcome::Passed => ExitCode::SUCCESS,
            Outcome::NotPassed if exit_zero => ExitCode::SUCCESS,
            Outcome::NotPassed => ExitCode::FAILURE,
            Outcome::Unsound => ExitCode::from(TROUBLE),
        }
    }
}

// The circuits of a file.
fn pass_file(rt: &HostRuntime, options: &PassOptions<'_>, path: &str) -> Result<Outcome, Flaw> {
    if path == "-" {
        return pass_reader(rt, options, path, rt.reader());
    }
    match fs::open(rt, path) {
        Ok(file) => pass_reader(rt, options, path, file),
        Err(e) => Err(Flaw::Unreadable(e)),
    }
}

// Why not all of a file could be answered for is told.
fn tell(rt: &HostRuntime, path: &str, flaw: Flaw) -> io::Result<Outcome> {
    eprintln!(rt; "pass: {}:{flaw}", Escaped(path))?;
    Ok(Outcome::Unsound)
}

// What was found in a file.
fn outcome_of(rt: &HostRuntime, options: &PassOptions<'_>, path: &str) -> io::Result<Outcome> {
    match pass_file(rt, options, path) {
        Ok(outcome) => Ok(outcome),
        Err(Flaw::Untold(e)) => Err(e),
        Err(flaw) => tell(rt, path, flaw),
    }
}

// The worst of what was found in the files.
fn pass_files(rt: &HostRuntime, options: &PassOptions<'_>) -> io::Result<ExitCode> {
    let mut worst = Outcome::Passed;
    for file in options.files.iter() {
        worst = worst.max(outcome_of(rt, options, file)?);
    }
    Ok(worst.status(options.exit_zero))
}

// Prints what stands in the place of what the program does.
fn print_told(rt: &HostRuntime, told: &Told) -> io::Result<ExitCode> {
    if told.error {
        eprint!(rt; "{}", told.text)?;
    } else {
        print!(rt; "{}", told.text)?;
    }
    Ok(ExitCode::from(told.status))
}

// Does what the arguments ask for.
fn obey(rt: &HostRuntime, args: &[String]) -> io::Result<ExitCode> {
    match pass_options(rt.alloc(), args)? {
        Asked::Do(options) => pass_files(rt, &options),
        Asked::Tell(told) => print_told(rt, &told),
    }
}

// What ends the program is told, unless nobody reads on what it prints.
fn tell_trouble(rt: &HostRuntime, e: io::Error) -> ExitCode {
    if e.kind() != io::ErrorKind::BrokenPipe {
        let _ = eprintln!(rt; "pass: {e}");
    }
    ExitCode::from(TROUBLE)
}

fn main(rt: HostRuntime) -> ExitCode {
    let args = match arguments(&rt) {
        Ok(args) => args,
        Err(e) => {
            let _ = eprintln!(rt; "pass: {e}");
            return ExitCode::from(TROUBLE);
        }
    };
    match obey(&rt, &args) {
        Ok(status) => status,
        Err(e) => tell_trouble(&rt, e),
    }
}
