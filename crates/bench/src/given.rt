// The two files: a circuit, and what is told to it.
use circuit::{Circuit, Register};
use cli::BenchOptions;
use fields::{Expected, Fault};
use found::found;
use input::{Cut, Feed, Misread, Next};
use script::{Entry, Script};
use std::alloc::{AllocError, Global};
use std::io::Read;
use std::os::unix::fs::MetadataExt;
use std::{fmt, fs, io};
use text::Listing;

// What is wrong with a file.
#[derive(Drop)]
pub(crate) enum Flaw {
    // It cannot be read or written.
    Unusable(io::Error),
    // A fault of its text, with the word that stands there.
    Fault(Fault, Option<String>),
    // On this line there is what no text has.
    Misread(usize, Misread),
    Memory,
    NoCircuit,
    // Another circuit begins on this line.
    MoreCircuits(usize),
    NoCycle,
    // A clock is told on this line that comes after the run's end.
    PastEnd(usize),
    // There is no number from which runs are made.
    NoRandom,
    // What is written would stand in the place of what is read.
    Overwrites,
}

impl From<io::Error> for Flaw {
    fn from(e: io::Error) -> Flaw {
        Flaw::Unusable(e)
    }
}

impl From<AllocError> for Flaw {
    fn from(_: AllocError) -> Flaw {
        Flaw::Memory
    }
}

// What stands behind the file's name and a colon.
impl fmt::Display for Flaw {
    fn fmt<W: fmt::Write>(&self, f: &mut fmt::Formatter<W>) -> fmt::Result {
        match self {
            Flaw::Unusable(e) => write!(f, " {e}"),
            Flaw::Fault(fault, None) => fault.fmt(f),
            Flaw::Fault(fault, Some(word)) => write!(f, "{fault}, found {word}"),
            Flaw::Misread(line, misread) => write!(f, "{line}: {misread}"),
            Flaw::Memory => f.write_str(" memory is short"),
            Flaw::NoCircuit => f.write_str(" no circuit: expected one"),
            Flaw::MoreCircuits(line) => write!(f, "{line}: expected just one circuit"),
            Flaw::NoCycle => f.write_str(" no cycle: nothing would be looked at"),
            Flaw::PastEnd(line) => write!(
                f,
                "{line}: expected a cycle that begins before the run's end"
            ),
            Flaw::Overwrites => f.write_str(" --vcd would overwrite what is read"),
            Flaw::NoRandom => f.write_str(" no line `random`: --trials needs one"),
        }
    }
}

// A fault of a text, with the word of its line that stands there.
fn flaw_of(heap: Global, fault: Fault, line: &[u8]) -> Result<Flaw, AllocError> {
    if fault.expected == Expected::Memory {
        return Ok(Flaw::Memory);
    }
    let word = match found(line, fault.expected) {
        Some(word) => Some(format!(in heap; "{}", Cut(word))?),
        None => None,
    };
    Ok(Flaw::Fault(fault, word))
}

// What takes a text line by line.
trait Taker {
    fn take(&mut self, heap: Global, text: &[u8], line: usize) -> Result<(), Flaw>;
}

// One circuit, and no more.
#[derive(Drop)]
struct OneCircuit {
    reader: text::Reader,
    listing: Option<Listing>,
}

impl Taker for OneCircuit {
    fn take(&mut self, heap: Global, text: &[u8], line: usize) -> Result<(), Flaw> {
        match self.reader.line(heap, text, line) {
            Ok(Some(listing)) => self.listing = Some(listing),
            Ok(None) if self.listing.is_some() && self.reader.is_inside() => {
                return Err(Flaw::MoreCircuits(line));
            }
            Ok(None) => {}
            Err(fault) => return Err(flaw_of(heap, fault, text)?),
        }
        Ok(())
    }
}

impl Taker for delays::Reader {
    fn take(&mut self, heap: Global, text: &[u8], line: usize) -> Result<(), Flaw> {
        match self.line(text, line) {
            Ok(()) => Ok(()),
            Err(fault) => Err(flaw_of(heap, fault, text)?),
        }
    }
}

// Takes all lines of a reader; answers the number of the line before which its text ends.
fn take_all<R: Read + Drop, T: Taker>(
    heap: Global,
    reader: R,
    taker: &mut T,
) -> Result<usize, Flaw> {
    let mut feed = Feed::new(heap, reader);
    for _ in 0..u64::MAX {
        match feed.next() {
            Ok(Next::Line) => taker.take(heap, feed.line(), feed.number())?,
            Ok(Next::Nothing) => feed.more()?,
            Ok(Next::End) => break,
            Err(Misread::Memory) => return Err(Flaw::Memory),
            Err(misread) => return Err(Flaw::Misread(feed.number(), misread)),
        }
    }
    Ok(feed.number())
}

// The same of a file, or of standard input where its name is `-`.
fn take_file<T: Taker>(rt: &HostRuntime, path: &str, taker: &mut T) -> Result<usize, Flaw> {
    if path == "-" {
        return take_all(rt.alloc(), rt.reader(), taker);
    }
    take_all(rt.alloc(), fs::open(rt, path)?, taker)
}

// The one circuit of a file.
pub(crate) fn read_circuit(rt: &HostRuntime, path: &str) -> Result<Listing, Flaw> {
    let mut one = OneCircuit {
        reader: text::Reader::new(),
        listing: None,
    };
    let line = take_file(rt, path, &mut one)?;
    if one.reader.is_inside() {
        let expected = Expected::End;
        return Err(Flaw::Fault(Fault { line, expected }, None));
    }
    one.listing.ok_or(Flaw::NoCircuit)
}

// The first clock of a cycle that begins after the run's end. Whether it comes after the one before it would take longer to
// see than the run.
fn past_end(circuit: Circuit<'_>, script: &Script) -> Option<Entry> {
    let latest = circuit
        .registers()
        .iter()
        .map(|numbers| Register::from(*numbers).late)
        .max()
        .unwrap_or(0);
    let after = u64::from(latest) + u64::from(circuit.output_late());
    let after = after / u64::from(circuit.period().max(1));
    let last = u64::from(script.cycles)
        .saturating_add(2)
        .saturating_add(after);
    let clocks = script.clocks.as_slice();
    clocks.iter().find(|e| u64::from(e.when) > last).copied()
}

// Why what is told to a circuit is not enough for a run, or for as many as are asked for.
fn flaw_of_script(task: &BenchOptions<'_>, circuit: Circuit<'_>, script: &Script) -> Option<Flaw> {
    if script.cycles == 0 {
        return Some(Flaw::NoCycle);
    }
    if let Some(clock) = past_end(circuit, script) {
        return Some(Flaw::PastEnd(clock.line.saturating_add(1)));
    }
    if task.trials.is_some() && script.seed.is_none() {
        return Some(Flaw::NoRandom);
    }
    None
}

// What a file tells to a circuit, which is to go some cycles.
pub(crate) fn read_script(
    rt: &HostRuntime,
    task: &BenchOptions<'_>,
    circuit: Circuit<'_>,
) -> Result<Script, Flaw> {
    let mut reader = delays::Reader::new(rt.alloc(), circuit.register_count());
    let line = take_file(rt, task.delays, &mut reader)?;
    let script = match reader.finish(line) {
        Ok(script) => script,
        Err(fault) => return Err(Flaw::Fault(fault, None)),
    };
    match flaw_of_script(task, circuit, &script) {
        Some(flaw) => Err(flaw),
        None => Ok(script),
    }
}

// Whether two names are of one file, however they are spelled.
fn is_same_file(rt: &HostRuntime, one: &str, two: &str) -> bool {
    match (fs::metadata(rt, one), fs::metadata(rt, two)) {
        (Ok(one), Ok(two)) => one.is_file() && one.dev() == two.dev() && one.ino() == two.ino(),
        _ => false,
    }
}

// The name of a file, that of standard input where it is `-`.
fn path_of(name: &str) -> &str {
    if name == "-" { "/dev/stdin" } else { name }
}

// Whether a file is one of the two that are read.
pub(crate) fn is_read(rt: &HostRuntime, task: &BenchOptions<'_>, path: &str) -> bool {
    is_same_file(rt, path, path_of(task.circuit)) || is_same_file(rt, path, path_of(task.delays))
}
