//! What is printed in place of what a program does.
ghost use Rattle.std.specs.Prelude.{◌≡◌, ◌++◌, ℕ, List, IfOk, codes, string_bytes};
ghost use Rattle.cli.specs.Asked.{IsToldBy};

use clap::error::ErrorKind;
use clap::{Command, Error};
use std::alloc::{AllocError, Global};
use std::fmt::Display;

/// What a command line asks for.
#[derive(Drop)]
pub enum Asked<T> {
    /// What the program is to do.
    Do(T),
    /// A text to print in its place: help, the version, or what is wrong with the command line.
    Tell(Told),
}

/// A text to print in place of what a program does.
#[derive(Drop)]
pub struct Told {
    pub text: String,
    /// Whether it goes to standard error, as what is wrong with a command line does.
    pub error: bool,
    /// The status with which the program ends: 0 for help and the version, 2 for what is wrong.
    pub status: u8,
}

// The status where a command line is wrong.
const WRONG: u8 = 2;

// How what is wrong begins where `clap` tells it.
const MARK: &str = "error: ";

// What `clap` tells of a command line of a program.
pub(crate) fn told_of(heap: Global, name: &str, error: &Error) -> Result<Told, AllocError>
    ensures { IfOk result (IsToldBy name.now) }
{
    if error.kind() == ErrorKind::OutOfMemory {
        return Err(AllocError);
    }
    let text = format!(in heap; "{error}")?;
    if error.use_stderr() {
        wrong(heap, name, text.as_str())
    } else {
        Ok(Told {
            text,
            error: false,
            status: 0,
        })
    }
}

// What is wrong, behind the program's name.
fn wrong(heap: Global, name: &str, message: &str) -> Result<Told, AllocError>
    ensures { IfOk result (IsToldBy name.now) }
{
    let mut text = String::from_str(heap, name)?;
    text.push_str(": ")?;
    text.push_str(message.strip_prefix(MARK).unwrap_or(message))?;
    Ok(Told {
        text,
        error: true,
        status: WRONG,
    })
}

// What is wrong with options that `clap` lets through, and how the program is asked.
pub(crate) fn refusal_of<W: Display>(
    heap: Global,
    command: &mut Command<'_>,
    name: &str,
    wrong: &W,
) -> Result<Told, AllocError>
    ensures { IfOk result (IsToldBy name.now) }
{
    let message = format!(in heap; "{wrong}")?;
    let error = command.error(ErrorKind::ValueValidation, message.as_str())?;
    told_of(heap, name, &error)
}
