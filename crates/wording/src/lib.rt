// The words on a circuit.
#![tactic(auto)]

ghost use Rattle.std.specs.Prelude.{◌≡◌, ℕ, List, Some, IfOk, OnOk, string_bytes};
ghost use Rattle.std.specs.Borrow.{Bor};
ghost use Rattle.text.specs.Meaning.{refusal_of};
ghost use Rattle.wording.specs.Line.{LineOf, StandsBehind};
ghost use Rattle.wording.specs.Words.{titled, margins, miscount_words};
ghost use Rattle.wording.specs.declared.Why.TheVariants.{Miscount};

use circuit::Refusal;
use detail::Detail;
use signoff::Miss;
use slack::Smallest;
use std::alloc::{AllocError, Global};
use std::fmt;
use std::fmt::Write;
use text::Part;

// A name and a colon, where there is a name. Its bytes are ASCII, so from_utf8 would add a case that cannot be.
#[derive(Clone, Copy)]
pub struct Title<'a>(pub &'a [u8]);

impl fmt::Display for Title<'_> {
    ghost output = { λ t. Some (titled t.0.now) };

    fn fmt<W: fmt::Write>(&self, f: &mut fmt::Formatter<W>) -> fmt::Result {
        if self.0.is_empty() {
            return Ok(());
        }
        for b in self.0 {
            f.write_char(*b as char)?;
        }
        f.write_str(": ")
    }
}

// A refusal, and why it applies: what stands behind `turned away by`.
#[derive(Copy)]
pub struct TurnedAway<D> {
    pub refusal: Refusal,
    pub why: D,
}

impl<D: Copy> Clone for TurnedAway<D> {
    fn clone(&self) -> Result<Self, AllocError> {
        Ok(*self)
    }
}

// Why a circuit that was read is turned away: a line has another count of numbers than it should, in words; or what is
// wrong with the numbers.
#[derive(Clone, Copy)]
pub enum Why {
    Miscount(&'static str),
    Detail(Detail),
}

impl fmt::Display for Why {
    fn fmt<W: fmt::Write>(&self, f: &mut fmt::Formatter<W>) -> fmt::Result {
        match self {
            Why::Miscount(words) => f.write_str(words),
            Why::Detail(detail) => detail.fmt(f),
        }
    }
}

// A refusal of a circuit that was read, and the line that it is about.
#[derive(Clone, Copy)]
pub struct Refused {
    pub what: TurnedAway<Why>,
    pub line: usize,
}

impl fmt::Display for Refused {
    fn fmt<W: fmt::Write>(&self, f: &mut fmt::Formatter<W>) -> fmt::Result {
        write!(f, "{} (line {})", self.what, self.line)
    }
}

impl TurnedAway<Why> {
    // For a line of a part that has another count of numbers than it should.
    pub fn miscounted(part: Part) -> Self
        ensures { (result.refusal ≡ refusal_of part) × ((words : Bor (List ℕ)) × (result.why ≡ Miscount words) × (words.now ≡ miscount_words part)) }
    {
        let why = Why::Miscount(match part {
            Part::Gates => "a gate has 7 numbers",
            Part::Registers => "a register has 3 numbers",
            Part::Times => "a line of times has 5 numbers",
        });
        TurnedAway {
            refusal: part.into(),
            why,
        }
    }
}

impl<D: fmt::Display> fmt::Display for TurnedAway<D> {
    fn fmt<W: fmt::Write>(&self, f: &mut fmt::Formatter<W>) -> fmt::Result {
        let (number, place) = (self.refusal.number(), self.refusal.place());
        write!(f, "{number} at {place}: {}", self.why)
    }
}

// A register that misses its time, with the lent room that begins with its path: a source, then of each gate its signal
// and the input that the path comes in by.
#[derive(Clone, Copy)]
pub struct Missed<'a> {
    pub miss: Miss,
    pub room: &'a [u32],
}

impl Missed<'_> {
    // The gates of the path, by which the register misses.
    fn put_gates<W: fmt::Write>(&self, f: &mut fmt::Formatter<W>) -> fmt::Result {
        let mut before = " by ";
        for i in (1..self.miss.path).step_by(2) {
            let Some(gate) = self.room.get(i) else {
                break;
            };
            write!(f, "{before}{gate}")?;
            before = ", ";
        }
        Ok(())
    }
}

impl fmt::Display for Missed<'_> {
    fn fmt<W: fmt::Write>(&self, f: &mut fmt::Formatter<W>) -> fmt::Result {
        write!(f, "at {}", self.miss.register)?;
        self.put_gates(f)?;
        write!(f, ": {} and {}", self.miss.arrival, self.miss.limit)
    }
}

// The smallest setup margin and the smallest hold margin.
#[derive(Clone, Copy)]
struct Margins(Smallest);

impl fmt::Display for Margins {
    ghost output = { λ m. Some (margins m.0) };

    fn fmt<W: fmt::Write>(&self, f: &mut fmt::Formatter<W>) -> fmt::Result {
        write!(
            f,
            "margin {} and {}",
            self.0.setup.margin, self.0.hold.margin
        )
    }
}

// A circuit's shortest period, and the frequency of it in MHz.
#[derive(Clone, Copy)]
struct Shortest(u64);

impl fmt::Display for Shortest {
    fn fmt<W: fmt::Write>(&self, f: &mut fmt::Formatter<W>) -> fmt::Result {
        match slack::frequency(self.0) {
            Some(thousandths) => write!(
                f,
                "{}, {}.{:03} MHz",
                self.0,
                thousandths / 1000,
                thousandths % 1000
            ),
            None => self.0.fmt(f),
        }
    }
}

// The word on a circuit.
#[derive(Clone, Copy)]
pub enum Word<'a> {
    Passed(Smallest),
    TooLate(Missed<'a>),
    TooEarly(Missed<'a>),
    TurnedAway(Refused),
    // Its shortest period.
    Shortest(u64),
    // Its smallest setup margin as a part of its period, in words.
    Ratio(&'a str),
}

// A word, what it is about and the line's end, put behind what a line says already.
fn put<D: fmt::Display + Drop>(
    heap: Global,
    line: &mut String,
    word: &str,
    what: D,
) -> Result<(), AllocError>
    ensures { OnOk result (StandsBehind (string_bytes line.old) word.now (string_bytes line.new)) }
{
    // No clause says what is printed of it, so that it is written apart from what is known of the line.
    let what = format!(in heap; "{what}")?;
    writeln!(line, "{word}{what}")
}

// The word on a circuit and the line's end, put behind what a line says already.
fn put_word(heap: Global, line: &mut String, word: Word<'_>) -> Result<(), AllocError>
    ensures { OnOk result (LineOf (string_bytes line.old) word.entry (string_bytes line.new)) }
{
    match word {
        Word::Passed(smallest) => writeln!(line, "passed, {}", Margins(smallest)),
        Word::TooLate(missed) => put(heap, line, "too late ", missed),
        Word::TooEarly(missed) => put(heap, line, "too early ", missed),
        Word::TurnedAway(refused) => put(heap, line, "turned away by ", refused),
        Word::Shortest(period) => put(heap, line, "shortest period ", Shortest(period)),
        Word::Ratio(words) => writeln!(line, "{words}"),
    }
}

// The line on a circuit of this name.
pub fn line(heap: Global, name: &[u8], word: Word<'_>) -> Result<String, fmt::Error>
    ensures { IfOk result (λ t. LineOf (titled name.now) word.entry (string_bytes t)) }
{
    let mut line = String::new(heap);
    write!(line, "{}", Title(name))?;
    put_word(heap, &mut line, word)?;
    Ok(line)
}
