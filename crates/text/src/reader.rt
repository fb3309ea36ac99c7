// Circuits that are read line by line.
ghost use Rattle.std.specs.Prelude.{◌≡◌, ◌*◌, ◌++◌, ◌∷◌, [], codes, IfOk, OnOk, MatchResult, Ok, None, Some, vec_items, is_some};
ghost use Rattle.std.specs.Option.{option_map};
ghost use Rattle.lines.specs.Words.{words, bare};
ghost use Rattle.text.specs.Meaning.{drafted, opened, statement, IsAtFault, LineStated};
ghost use Rattle.fields.specs.declared.fault.Expected.TheVariants.{Memory};
ghost use Rattle.text.specs.Reader.{ByLines, PlacesAreLines, TrimmedAlike, TrimmedWhole, one_more, placed, placed_by, placed_of, no_places, trimmed, listed, step, went_on, begun, most_gates, most_registers, most_times, Stepped, WentOn};

use crate::draft::{Draft, Keyword, Progress};
use crate::listing::{Listing, Places};
use circuit::{MOST_GATES, MOST_REGISTERS};
use fields::{Expected, Fault};
use std::alloc::{AllocError, Global};

// As many gates, registers and lines of times are kept: one more than a circuit can have.
const KEPT_GATES: usize = MOST_GATES + 1;

const KEPT_REGISTERS: usize = MOST_REGISTERS + 1;

const KEPT_TIMES: usize = 2;

// One line more.
fn push(lines: &mut Vec<usize>, number: usize) -> Result<(), AllocError>
    ensures { OnOk result (vec_items lines.new ≡ vec_items lines.old ++ (number ∷ [])) }
{
    Ok(lines.push(number)?)
}

// One line more, unless there are `most` of them.
fn keep(lines: &mut Vec<usize>, most: usize, number: usize) -> Result<(), AllocError>
    ensures { OnOk result (vec_items lines.new ≡ one_more most number (vec_items lines.old)) }
{
    if lines.len() >= most {
        return Ok(());
    }
    push(lines, number)
}

impl Places {
    // No lines yet.
    fn new(heap: Global) -> Places
        ensures { placed_of result ≡ no_places }
    {
        Places {
            gates: Vec::new(heap),
            registers: Vec::new(heap),
            times: Vec::new(heap),
        }
    }

    // One line more, by its keyword.
    fn add(&mut self, keyword: Option<Keyword>, number: usize) -> Result<(), AllocError>
        ensures { OnOk result (placed_of self.new ≡ placed_by keyword number (placed_of self.old)) }
    {
        match keyword {
            Some(Keyword::Gate) => keep(&mut self.gates, KEPT_GATES, number),
            Some(Keyword::Register) => keep(&mut self.registers, KEPT_REGISTERS, number),
            Some(Keyword::Times) => keep(&mut self.times, KEPT_TIMES, number),
            Some(Keyword::Circuit) | Some(Keyword::End) | None => Ok(()),
        }
    }
}

impl Draft {
    // Forgets numbers past those of one gate, register or line of times more than a circuit can have.
    fn trim(&mut self)
        ensures { drafted self.new ≡ trimmed (drafted self.old) }
    {
        self.gates.truncate(7 * KEPT_GATES);
        self.registers.truncate(3 * KEPT_REGISTERS);
        self.times.truncate(5 * KEPT_TIMES);
    }
}

// Lines are kept, or memory is short on this one.
fn kept(added: Result<(), AllocError>, line: usize) -> Result<(), Fault>
    ensures { MatchResult result (λ _. added ≡ Ok tt) (λ f. (f.line ≡ line) × (f.expected ≡ Memory)) }
{
    match added {
        Ok(()) => Ok(()),
        Err(e) => Err(Fault {
            line,
            expected: Expected::from(e),
        }),
    }
}

impl Listing {
    // Takes a line without its comment, which has this number, and keeps that.
    fn take(&mut self, text: &[u8], line: usize) -> Result<Progress, Fault>
        ensures stated { LineStated (statement line (drafted self.old.draft) (words text.now)) line (drafted self.new.draft) result }
        ensures places { OnOk result (placed_of self.new.places ≡ placed line (words text.now) (placed_of self.old.places)) }
    {
        let Some((word, rest)) = lines::word(text) else {
            return Ok(Progress::More);
        };
        let keyword = Keyword::of(word);
        kept(self.places.add(keyword, line), line)?;
        self.draft
            .said(keyword, rest, line)
            .map_err(|expected| Fault { line, expected })
    }

    // Goes on, or ends, on this line.
    fn go_on(&mut self, text: &[u8], line: usize) -> Result<Progress, Fault>
        ensures { WentOn (step (Some (listed self.old)) line (words text.now)) line (listed self.new) result }
    {
        let progress = self.take(text, line)?;
        self.draft.trim();
        Ok(progress)
    }
}

/// Reads circuits line by line, and keeps of each no more than the largest circuit takes.
#[derive(Drop)]
pub struct Reader {
    current: Option<Listing>,
}

impl Reader {
    /// A reader at a text's beginning, or between two circuits.
    pub fn new() -> Reader
        ensures { result.current ≡ None }
    {
        Reader { current: None }
    }

    /// Whether a circuit has begun and not ended.
    pub fn is_inside(&self) -> bool
        ensures { result ≡ is_some self.now.current }
    {
        self.current.is_some()
    }

    // The beginning of a circuit on this line, if it has one.
    fn open(heap: Global, text: &[u8], line: usize) -> Result<Option<Listing>, Fault>
        ensures { MatchResult result
            (λ l. begun (opened line (words text.now)) ≡ Ok (record { current = option_map listed l; done = None }))
            (IsAtFault (begun (opened line (words text.now))) line) }
    {
        let draft = Draft::open(heap, text, line).map_err(|expected| Fault { line, expected })?;
        match draft {
            Some(draft) => Ok(Some(Listing {
                draft,
                places: Places::new(heap),
            })),
            None => Ok(None),
        }
    }

    /// Takes one line more, with its number: answers the circuit that ends on it, if one does. After a fault no circuit is current.
    pub fn line(&mut self, heap: Global, text: &[u8], line: usize) -> Result<Option<Listing>, Fault>
        ensures { Stepped (step (option_map listed self.old.current) line (words (bare text.now))) line (option_map listed self.new.current) result }
    {
        self.bare_line(heap, lines::bare(text), line)
    }

    /// The same of a line without its comment.
    pub fn bare_line(
        &mut self,
        heap: Global,
        text: &[u8],
        line: usize,
    ) -> Result<Option<Listing>, Fault>
        ensures { Stepped (step (option_map listed self.old.current) line (words text.now)) line (option_map listed self.new.current) result }
    {
        let Some(listing) = &mut self.current else {
            self.current = Reader::open(heap, text, line)?;
            return Ok(None);
        };
        match listing.go_on(text, line) {
            Ok(Progress::More) => Ok(None),
            Ok(Progress::Done) => Ok(self.current.take()),
            Err(fault) => {
                self.current = None;
                Err(fault)
            }
        }
    }
}

/// Read line by line a text means what it means as a whole, but for what no circuit has.
pub fn reads_by_lines() -> u8
    ensures { ByLines }
{
    0
}

/// The lines that are kept of a circuit are those on which it stands.
pub fn places_are_lines() -> u8
    ensures { PlacesAreLines }
{
    0
}

/// What is forgotten of a circuit that is too large changes nothing of why it is turned away.
pub fn trimmed_alike() -> u8
    ensures { TrimmedAlike }
{
    0
}

/// Nothing is forgotten of a circuit that is not turned away.
pub fn trimmed_whole() -> u8
    ensures { TrimmedWhole }
{
    0
}
