// A run as a value change dump, as viewers of waveforms read it.
use crate::halt::Halt;
use clocks::{Bench, Ticks};
use std::alloc::{AllocError, Global};
use std::fmt::Write as _;
use std::fs::File;
use std::io::Write;
use std::{fmt, fs};
use trial::Trial;

// What is collected is written out once it has more bytes than this.
const COLLECTED: usize = 60_000;

const HEADER: &str = "$version muleminute bench $end
$comment
r0, g2: the signal of a register or a gate, by its number. clock_r0: 1 at each moment at which the
clock comes to the register. any_r0: the register may show anything. lost_r0: 1 at each moment at which
it begins to show a bit that may be anything, since its signal did not keep still.
$end
$timescale 1 ps $end
$scope module circuit $end
";

const FOOTER: &str = "$upscope $end
$enddefinitions $end
";

// A variable: a kind, and the number of the signal or the register. Its name in the dump is also its short code, which may
// be any printable ASCII.
#[derive(Clone, Copy)]
struct Variable(&'static str, usize);

impl fmt::Display for Variable {
    fn fmt<W: fmt::Write>(&self, f: &mut fmt::Formatter<W>) -> fmt::Result {
        write!(f, "{}{}", self.0, self.1)
    }
}

// The signal with this number, of so many registers and gates.
fn signal(k: usize, registers: usize) -> Variable {
    Variable(if k < registers { "r" } else { "g" }, k)
}

fn declare(text: &mut String, variable: Variable) -> Result<(), AllocError> {
    writeln!(text, "$var wire 1 {variable} {variable} $end")?;
    Ok(())
}

// What is told of a register beside its signal.
fn declare_register(text: &mut String, r: usize) -> Result<(), AllocError> {
    declare(text, Variable("clock_r", r))?;
    declare(text, Variable("any_r", r))?;
    declare(text, Variable("lost_r", r))
}

// What stands before the first moment.
fn declare_all(text: &mut String, registers: usize, signals: usize) -> Result<(), AllocError> {
    text.push_str(HEADER)?;
    for k in 0..signals {
        declare(text, signal(k, registers))?;
    }
    for r in 0..registers {
        declare_register(text, r)?;
    }
    text.push_str(FOOTER)
}

// A wire's change, if it shows another bit than last.
fn change(
    text: &mut String,
    shown: &mut Option<bool>,
    bit: bool,
    wire: Variable,
) -> Result<(), AllocError> {
    if *shown != Some(bit) {
        *shown = Some(bit);
        writeln!(text, "{}{wire}", u8::from(bit))?;
    }
    Ok(())
}

// What is kept of a register between moments.
#[derive(Clone, Copy)]
struct Register {
    clock: Option<bool>,
    any: Option<bool>,
    lost: Option<bool>,
    ticks: Ticks,
}

impl Register {
    // What changes for register `r` at a moment that has just gone.
    fn put(
        &mut self,
        text: &mut String,
        r: usize,
        bench: Bench<'_>,
        trial: &Trial<'_>,
        t: u64,
    ) -> Result<(), AllocError> {
        let comes = self.ticks.comes(bench, t);
        change(text, &mut self.clock, comes, Variable("clock_r", r))?;
        let any = trial.shows_anything(r);
        change(text, &mut self.any, any, Variable("any_r", r))?;
        let lost = trial.takes_anything(r);
        change(text, &mut self.lost, lost, Variable("lost_r", r))
    }
}

// What each signal showed last, and what is kept of each register.
#[derive(Drop)]
struct Kept {
    shown: Vec<Option<bool>>,
    registers: Vec<Register>,
}

// What is kept of each register at the beginning.
fn kept_of(heap: Global, bench: Bench<'_>) -> Result<Vec<Register>, AllocError> {
    let mut kept = Vec::new(heap);
    for r in 0..bench.circuit.register_count() {
        kept.push(Register {
            clock: None,
            any: None,
            lost: None,
            ticks: Ticks::new(bench, r),
        })?;
    }
    Ok(kept)
}

impl Kept {
    fn new(heap: Global, bench: Bench<'_>) -> Result<Kept, AllocError> {
        let shown = vec![in heap; None; bench.circuit.signal_count()]?;
        let registers = kept_of(heap, bench)?;
        Ok(Kept { shown, registers })
    }

    // The signals that changed at a moment that has just gone.
    fn put_signals(&mut self, text: &mut String, trial: &Trial<'_>) -> Result<(), AllocError> {
        let registers = self.registers.len();
        for (k, shown) in self.shown.iter_mut().enumerate() {
            change(text, shown, trial.signal(k), signal(k, registers))?;
        }
        Ok(())
    }

    // The changes of moment `t`, which has just gone.
    fn put(
        &mut self,
        text: &mut String,
        bench: Bench<'_>,
        trial: &Trial<'_>,
        t: u64,
    ) -> Result<(), AllocError> {
        self.put_signals(text, trial)?;
        for (r, register) in self.registers.iter_mut().enumerate() {
            register.put(text, r, bench, trial, t)?;
        }
        Ok(())
    }
}

// A dump that is being written.
#[derive(Drop)]
pub(crate) struct Dump {
    file: File,
    text: String,
    // The changes of the moment that is being written.
    changes: String,
    kept: Kept,
}

// The beginning of the text of a dump.
fn beginning(heap: Global, bench: Bench<'_>) -> Result<String, AllocError> {
    let mut text = String::new(heap);
    let circuit = bench.circuit;
    declare_all(&mut text, circuit.register_count(), circuit.signal_count())?;
    Ok(text)
}

impl Dump {
    // The beginning of the dump of a run, which is written out at once, so that a run that is cut off leaves what can be read.
    pub(crate) fn new(rt: &HostRuntime, path: &str, bench: Bench<'_>) -> Result<Dump, Halt> {
        let heap = rt.alloc();
        let file = match fs::create(rt, path) {
            Ok(file) => file,
            Err(e) => return Err(Halt::Unwritten(e)),
        };
        let text = beginning(heap, bench)?;
        let kept = Kept::new(heap, bench)?;
        let mut dump = Dump {
            file,
            text,
            changes: String::new(heap),
            kept,
        };
        dump.flush()?;
        Ok(dump)
    }

    // Moment `t`, which has just gone.
    fn put(&mut self, bench: Bench<'_>, trial: &Trial<'_>, t: u64) -> Result<(), AllocError> {
        self.changes.clear();
        self.kept.put(&mut self.changes, bench, trial, t)?;
        if !self.changes.is_empty() {
            writeln!(self.text, "#{t}")?;
            self.text.push_str(&self.changes)?;
        }
        Ok(())
    }

    // The moment that has just gone.
    pub(crate) fn moment(&mut self, bench: Bench<'_>, trial: &Trial<'_>) -> Result<(), Halt> {
        self.put(bench, trial, trial.moment().saturating_sub(1))?;
        if self.text.len() > COLLECTED {
            self.flush()?;
        }
        Ok(())
    }

    // The end of the run.
    pub(crate) fn finish(&mut self, trial: &Trial<'_>) -> Result<(), Halt> {
        writeln!(self.text, "#{}", trial.moment())?;
        self.flush()
    }

    // Writes out what was collected.
    fn flush(&mut self) -> Result<(), Halt> {
        match self.file.write_all(self.text.as_bytes()) {
            Ok(()) => {
                self.text.clear();
                Ok(())
            }
            Err(e) => Err(Halt::Unwritten(e)),
        }
    }
}
