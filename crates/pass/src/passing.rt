// The circuits of a text that is read line by line.
use crate::Outcome;
use crate::source::Source;
use circuits::{Circuits, Next, Wrong};
use cli::PassOptions;
use fields::{Expected, Fault};
use found::found;
use input::{Cut, Misread};
use std::alloc::{AllocError, Global};
use std::io::{ErrorKind, Read};
use std::{fmt, io};
use text::Listing;

// What is said is written out once it has more bytes than this.
const COLLECTED: usize = 60_000;

// Why not all of a file could be answered for.
#[derive(Drop)]
pub(crate) enum Flaw {
    Unreadable(io::Error),
    // What was said of it cannot be written.
    Untold(io::Error),
    // A fault of its text, with the word that stands there.
    Fault(Fault, Option<String>),
    // On this line there is what no text has.
    Misread(usize, Misread),
    NoCircuit,
    Memory,
}

// What stands behind the file's name and a colon.
impl fmt::Display for Flaw {
    fn fmt<W: fmt::Write>(&self, f: &mut fmt::Formatter<W>) -> fmt::Result {
        match self {
            Flaw::Unreadable(e) | Flaw::Untold(e) => write!(f, " {e}"),
            Flaw::Fault(fault, None) => fault.fmt(f),
            Flaw::Fault(fault, Some(word)) => write!(f, "{fault}, found {word}"),
            Flaw::Misread(line, misread) => write!(f, "{line}: {misread}"),
            Flaw::NoCircuit => f.write_str(" no circuit: nothing was checked"),
            Flaw::Memory => f.write_str(" memory is short"),
        }
    }
}

impl From<AllocError> for Flaw {
    fn from(_: AllocError) -> Flaw {
        Flaw::Memory
    }
}

// Writes out what was collected, if it has more bytes than so many.
fn flush(rt: &HostRuntime, out: &mut String, most: usize) -> Result<(), Flaw> {
    if out.len() <= most {
        return Ok(());
    }
    let written = rt.write_all(out.as_bytes());
    // What could not be written is not written later.
    out.clear();
    match written {
        Ok(()) => Ok(()),
        Err(e) => Err(Flaw::Untold(e)),
    }
}

// What is wrong with a text, with the word that stands there where a line should have had another.
fn flaw_of(heap: Global, wrong: Wrong, line: &[u8], number: usize) -> Result<Flaw, AllocError> {
    match wrong {
        Wrong::Misread(Misread::Memory) => Ok(Flaw::Memory),
        Wrong::Misread(misread) => Ok(Flaw::Misread(number, misread)),
        Wrong::Fault(fault) if fault.expected == Expected::Memory => Ok(Flaw::Memory),
        Wrong::Fault(fault) => {
            let word = match found(line, fault.expected) {
                Some(word) => Some(format!(in heap; "{}", Cut(word))?),
                None => None,
            };
            Ok(Flaw::Fault(fault, word))
        }
    }
}

// The circuits of a file, read line by line, and what is said of them.
#[derive(Drop)]
struct Passing<'a, 'b> {
    options: &'a PassOptions<'b>,
    file: &'a str,
    out: String,
    worst: Option<Outcome>,
}

impl Passing<'_, '_> {
    // Puts what is told of a circuit behind what was said, as a whole or not at all.
    fn tell(&mut self, rt: &HostRuntime, listing: &Listing) -> Result<(), Flaw> {
        let mut said = String::new(rt.alloc());
        let source = Source {
            file: self.file,
            listing,
        };
        let Ok(outcome) = source.tell(rt.alloc(), self.options, &mut said) else {
            return Err(Flaw::Memory);
        };
        self.out.push_str(&said)?;
        self.worst = self.worst.max(Some(outcome));
        flush(rt, &mut self.out, COLLECTED)
    }

    // The circuits of a text, one after another. What was said is not held back while more is waited for.
    fn all<R: Read + Drop>(
        &mut self,
        rt: &HostRuntime,
        circuits: &mut Circuits<R>,
    ) -> Result<Outcome, Flaw> {
        for _ in 0..u64::MAX {
            match circuits.next(rt.alloc()) {
                Ok(Next::Circuit(listing)) => self.tell(rt, &listing)?,
                Ok(Next::Nothing) => {
                    flush(rt, &mut self.out, 0)?;
                    circuits.more().map_err(Flaw::Unreadable)?;
                }
                Ok(Next::End) => break,
                Err(wrong) => {
                    return Err(flaw_of(rt.alloc(), wrong, circuits.line(), circuits.number())?);
                }
            }
        }
        self.worst.ok_or(Flaw::NoCircuit)
    }
}

// The circuits of a reader. What was said of them stays said where a flaw comes after them.
pub(crate) fn pass_reader<R: Read + Drop>(
    rt: &HostRuntime,
    options: &PassOptions<'_>,
    path: &str,
    reader: R,
) -> Result<Outcome, Flaw> {
    let mut circuits = Circuits::new(rt.alloc(), reader);
    let mut passing = Passing {
        options,
        file: path,
        out: String::new(rt.alloc()),
        worst: None,
    };
    let outcome = passing.all(rt, &mut circuits);
    flush(rt, &mut passing.out, 0)?;
    outcome
}
