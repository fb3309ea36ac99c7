// Texts of circuits, read.
#![tactic(auto)]

ghost use Rattle.std.specs.Prelude.{◌≡◌, ℕ, ◌*◌, ◌^◌, ◌<◌, ◌≤◌, List, ◌++◌, length, vec_items, Some, None, Ok, Err, MatchResult, true};
ghost use Rattle.std.specs.List.{list_all};
ghost use Rattle.lines.specs.Words.{words, lines, bare};
ghost use Rattle.fields.specs.Fields.{fields};
ghost use Rattle.text.specs.Meaning.{meaning, drafted, noted, statement, said, inside, fresh, printable, title, opened, first_circuit, Added, Taken, Ended, Stated, LineStated, Titled, Opened, LineOpened};
ghost use Rattle.text.specs.Read.{ToEnd, FirstOpened, IsRead};

use fields::{Expected, Fault};
use lines::{Lines, Words};
use std::alloc::Global;

mod draft;
mod listing;
mod part;
mod reader;

use draft::Progress;
pub use draft::{Draft, Keyword, Miscount, Read};
pub use listing::{Listing, Places};
pub use part::Part;
pub use reader::{Reader, places_are_lines, reads_by_lines, trimmed_alike, trimmed_whole};

impl Keyword {
    // What a line is that begins with this word.
    fn of(word: &[u8]) -> Option<Keyword>
        ensures { result ≡ meaning word.now }
    {
        if lines::same(word, b"gate") {
            Some(Keyword::Gate)
        } else if lines::same(word, b"register") {
            Some(Keyword::Register)
        } else if lines::same(word, b"times") {
            Some(Keyword::Times)
        } else if lines::same(word, b"circuit") {
            Some(Keyword::Circuit)
        } else if lines::same(word, b"end") {
            Some(Keyword::End)
        } else {
            None
        }
    }
}

// A miscounted line is kept unless one is kept already of the same part or an earlier one.
fn note(miscount: Option<Miscount>, part: Part, line: usize) -> Option<Miscount>
    ensures { result ≡ noted miscount part line }
{
    match miscount {
        Some(kept) if kept.part <= part => Some(kept),
        _ => Some(Miscount { part, line }),
    }
}

// The lines of a part: which part, and the column, if any, where a table may stand.
#[derive(Clone, Copy)]
struct Row {
    part: Part,
    table_at: Option<usize>,
}

const GATE: Row = Row {
    part: Part::Gates,
    table_at: Some(2),
};

const REGISTER: Row = Row {
    part: Part::Registers,
    table_at: None,
};

const TIMES: Row = Row {
    part: Part::Times,
    table_at: None,
};

// The N numbers of a line added to their part, or the line kept as a miscounted one.
fn add<const N: usize>(
    text: &[u8],
    line: usize,
    row: Row,
    so_far: &mut Vec<u32>,
    miscount: &mut Option<Miscount>,
) -> Result<(), Expected>
    requires { N * 4 < 2 ^ 63 }
    ensures { Added (fields true row.table_at 0 N (words text.now)) row.part line so_far.old.items so_far.new.items miscount.old miscount.new result }
{
    match fields::read::<N>(text, true, row.table_at)? {
        Some(numbers) => so_far.extend_from_slice(&numbers)?,
        None => *miscount = note(*miscount, row.part, line),
    }
    Ok(())
}

// The same; a circuit goes on after such a line.
fn take<const N: usize>(
    text: &[u8],
    line: usize,
    row: Row,
    so_far: &mut Vec<u32>,
    miscount: &mut Option<Miscount>,
) -> Result<Progress, Expected>
    requires { N * 4 < 2 ^ 63 }
    ensures { Taken (fields true row.table_at 0 N (words text.now)) row.part line so_far.old.items so_far.new.items miscount.old miscount.new result }
{
    add::<N>(text, line, row, so_far, miscount)?;
    Ok(Progress::More)
}

// No more words.
fn nothing(text: &[u8]) -> Result<(), Expected>
    ensures { Ended (words text.now) result }
{
    match lines::word(text) {
        None => Ok(()),
        Some(_) => Err(Expected::Nothing),
    }
}

impl Draft {
    // Takes what a line says by its keyword and its other words; it has this number.
    fn said(
        &mut self,
        keyword: Option<Keyword>,
        rest: &[u8],
        line: usize,
    ) -> Result<Progress, Expected>
        ensures { Stated (said keyword line (drafted self.old) (words rest.now)) (drafted self.new) result }
    {
        let miscount = &mut self.miscount;
        match keyword {
            Some(Keyword::Gate) => take::<7>(rest, line, GATE, &mut self.gates, miscount),
            Some(Keyword::Register) => take::<3>(
                rest,
                line,
                REGISTER,
                &mut self.registers,
                miscount,
            ),
            Some(Keyword::Times) => take::<5>(rest, line, TIMES, &mut self.times, miscount),
            Some(Keyword::End) => {
                nothing(rest)?;
                Ok(Progress::Done)
            }
            Some(Keyword::Circuit) | None => Err(Expected::Statement),
        }
    }

    // Takes a line, which has this number.
    fn statement(&mut self, text: &[u8], line: usize) -> Result<Progress, Expected>
        ensures { Stated (statement line (drafted self.old) (words text.now)) (drafted self.new) result }
    {
        match lines::word(text) {
            Some((word, rest)) => self.said(Keyword::of(word), rest, line),
            None => Ok(Progress::More),
        }
    }

    // The same with its comment.
    fn line(&mut self, text: &[u8], line: usize) -> Result<Progress, Fault>
        ensures { LineStated (statement line (drafted self.old) (words (bare text.now))) line (drafted self.new) result }
    {
        self.statement(lines::bare(text), line)
            .map_err(|expected| Fault { line, expected })
    }

    // Takes the lines from inside a circuit to its end.
    fn lines(&mut self, rest: &mut Lines) -> Result<(), Fault>
        ensures { ToEnd (inside rest.old.number (drafted self.old) (lines rest.old.text.now)) rest.old.text.now (drafted self.new) rest.new.number rest.new.text.now result }
    {
        while let Some((line, text)) = rest.next() {
            match self.line(text, line)? {
                Progress::More => {}
                Progress::Done => return Ok(()),
            }
        }
        Err(Fault {
            line: rest.number,
            expected: Expected::End,
        })
    }

    // A circuit with this name, none of whose lines was read.
    fn new(heap: Global, name: Vec<u8>, line: usize) -> Draft
        ensures { drafted result ≡ fresh (vec_items name) line }
    {
        Draft {
            name,
            line,
            gates: Vec::new(heap),
            registers: Vec::new(heap),
            times: Vec::new(heap),
            miscount: None,
        }
    }

    // The beginning of a circuit, None where a line has no word.
    fn open(heap: Global, text: &[u8], line: usize) -> Result<Option<Draft>, Expected>
        ensures { Opened (opened line (words text.now)) result }
    {
        let Some((word, rest)) = lines::word(text) else {
            return Ok(None);
        };
        if !lines::same(word, b"circuit") {
            return Err(Expected::Circuit);
        }
        let name = Vec::from_slice(heap, title(rest)?)?;
        Ok(Some(Draft::new(heap, name, line)))
    }

    // The same with its comment.
    fn open_line(heap: Global, text: &[u8], line: usize) -> Result<Option<Draft>, Fault>
        ensures { LineOpened (opened line (words (bare text.now))) line result }
    {
        Draft::open(heap, lines::bare(text), line).map_err(|expected| Fault { line, expected })
    }

    // The beginning of the first circuit of some lines, None where there is none.
    fn first(heap: Global, rest: &mut Lines) -> Result<Option<Draft>, Fault>
        ensures { FirstOpened (first_circuit rest.old.number (lines rest.old.text.now)) rest.old.text.now rest.new.number rest.new.text.now result }
    {
        while let Some((line, text)) = rest.next() {
            if let Some(draft) = Draft::open_line(heap, text, line)? {
                return Ok(Some(draft));
            }
        }
        Ok(None)
    }
}

// Whether a name has printable ASCII alone.
fn all_printable(name: &[u8]) -> bool
    ensures { result ≡ list_all printable name.now }
{
    name.iter().all(|b| b.is_ascii_graphic())
}

// The name that stands after `circuit`, empty where there is none.
fn title(text: &[u8]) -> Result<&[u8], Expected>
    ensures { Titled (title (words text.now)) result }
{
    let mut words = Words::new(text);
    let Some(name) = words.next() else {
        return Ok(&[]);
    };
    if words.next().is_none() && all_printable(name) {
        Ok(name)
    } else {
        Err(Expected::Name)
    }
}

// The first circuit of a text, None where there is none; lines are counted from 1.
pub fn read<'a>(heap: Global, text: &'a [u8]) -> Result<Option<Read<'a>>, Fault>
    ensures { IsRead (first_circuit 1 (lines text.now)) text.now result }
{
    let mut rest = Lines::new(text);
    let Some(mut draft) = Draft::first(heap, &mut rest)? else {
        return Ok(None);
    };
    draft.lines(&mut rest)?;
    Ok(Some(Read { draft, rest }))
}
