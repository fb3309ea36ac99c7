// Texts of delays and all else that a bench is told, read.
#![tactic(auto)]

ghost use Rattle.std.specs.Prelude.{◌≡◌, ◌-◌, [], Some};
ghost use Rattle.lines.specs.Words.{words, bare};
ghost use Rattle.delays.specs.Row.{and_then};
ghost use Rattle.delays.specs.Meaning.{nothing, drafted, added, said, statement, meaning, Stated, LineStated, ReadOnce, IsRead, ReadsLine};
ghost use Rattle.delays.specs.ByLines.{FaultIsFirst, ToldByLines, ToldOfGate};

use draft::Draft;
use fields::{Expected, Fault, Line};
use script::{Entry, Kind, Script};
use std::alloc::Global;

mod draft;
mod row;

// A value that may be told just once, if it was read.
fn once<T: Drop>(
    told: &mut Option<T>,
    value: Result<T, Expected>,
    line: Line,
) -> Result<(), Expected>
    ensures { ReadOnce line told.old told.new value result }
{
    let value = value?;
    if told.is_some() {
        return Err(Expected::Once(line));
    }
    *told = Some(value);
    Ok(())
}

impl Draft {
    // Nothing is told.
    fn new(heap: Global) -> Draft
        ensures { drafted result ≡ nothing }
    {
        Draft {
            cycles: None,
            script: Script::new(heap),
        }
    }

    // One statement more, which has to come in order.
    fn push(&mut self, kind: Kind, line: Line, entry: Entry) -> Result<(), Expected>
        ensures { Stated (added (drafted self.old) kind line entry) (drafted self.new) result }
    {
        if self.script.push(kind, entry)? {
            Ok(())
        } else {
            Err(Expected::NoEarlier(line))
        }
    }

    // The same, if it was read.
    fn add(
        &mut self,
        kind: Kind,
        line: Line,
        entry: Result<Entry, Expected>,
    ) -> Result<(), Expected>
        ensures { Stated (and_then entry (added (drafted self.old) kind line)) (drafted self.new) result }
    {
        self.push(kind, line, entry?)
    }

    // Takes what follows the first word of a line, which has this number, counted from 0.
    fn tell(
        &mut self,
        heap: Global,
        line: Line,
        rest: &[u8],
        at: usize,
        registers: usize,
    ) -> Result<(), Expected>
        ensures { Stated (said registers at (drafted self.old) (Some line) (words rest.now)) (drafted self.new) result }
    {
        match line {
            Line::Cycles => once(&mut self.cycles, row::number(rest, line), line),
            Line::Start => once(
                &mut self.script.start,
                row::bits(heap, rest, registers),
                line,
            ),
            Line::Random => once(&mut self.script.seed, row::seed(rest, line), line),
            Line::Clock => self.add(Kind::Clock, line, row::entry(rest, at, line)),
            Line::Delay => self.add(Kind::Delay, line, row::delay(rest, at, registers)),
            Line::Show => self.add(Kind::Show, line, row::bit_entry(rest, at, line, registers)),
            Line::Take => self.add(Kind::Take, line, row::bit_entry(rest, at, line, registers)),
        }
    }

    // Takes a line, which has this number, counted from 0.
    #[tactic(auto, unfolding(crate::specs::Meaning::statement))]
    fn statement(
        &mut self,
        heap: Global,
        text: &[u8],
        at: usize,
        registers: usize,
    ) -> Result<(), Expected>
        ensures { Stated (statement registers at (drafted self.old) (words text.now)) (drafted self.new) result }
    {
        let Some((word, rest)) = lines::word(text) else {
            return Ok(());
        };
        let line = Line::of(word).ok_or(Expected::FirstWord)?;
        self.tell(heap, line, rest, at, registers)
    }

    // The same with its comment, and its number counted from 1.
    fn line(
        &mut self,
        heap: Global,
        text: &[u8],
        line: usize,
        registers: usize,
    ) -> Result<(), Fault>
        ensures { LineStated (statement registers (line - 1) (drafted self.old) (words (bare text.now))) line (drafted self.new) result }
    {
        self.statement(heap, lines::bare(text), line.saturating_sub(1), registers)
            .map_err(|expected| Fault { line, expected })
    }
}

/// Reads a text of delays, clocks and all else that is told to a run, line by line, for a circuit with `registers` registers.
#[derive(Drop)]
pub struct Reader {
    heap: Global,
    registers: usize,
    draft: Draft,
}

impl Reader {
    /// A reader at a text's beginning.
    pub fn new(heap: Global, registers: usize) -> Reader
        ensures registers { result.registers ≡ registers }
        ensures nothing { drafted result.draft ≡ nothing }
    {
        Reader {
            heap,
            registers,
            draft: Draft::new(heap),
        }
    }

    /// Takes one line more, with its number, counted from 1; what is read is what the text means, line after line. After a fault
    /// nothing more is to be read.
    pub fn line(&mut self, text: &[u8], line: usize) -> Result<(), Fault>
        ensures registers { self.new.registers ≡ self.old.registers }
        ensures line { ReadsLine self.old.registers (drafted self.old.draft) text.now line (drafted self.new.draft) result }
    {
        self.draft.line(self.heap, text, line, self.registers)
    }

    /// All that was told, where the text ends before this line: a count of cycles has to be among it.
    pub fn finish(self, line: usize) -> Result<Script, Fault>
        ensures { IsRead (meaning self.registers line (drafted self.draft) []) result }
    {
        let Draft { cycles, mut script } = self.draft;
        match cycles {
            Some(cycles) => {
                script.cycles = cycles;
                Ok(script)
            }
            None => Err(Fault {
                line,
                expected: Expected::Cycles,
            }),
        }
    }
}

// A text with no fault tells what its lines tell: each value that is told once on the one line that tells it, and the
// statements of each kind with their lines, in their order.
pub fn told_by_lines() -> u8
    ensures { ToldByLines }
{
    0
}

// A text with a fault has it first on its line: no line above is at fault, the lines above tell what they tell, and that
// line is at fault below them.
pub fn fault_is_first() -> u8
    ensures { FaultIsFirst }
{
    0
}

// A delay lies within the bounds of a circuit only if its signal is the output of a gate, and then it is told of that
// gate.
pub fn told_of_gate() -> u8
    ensures { ToldOfGate }
{
    0
}
