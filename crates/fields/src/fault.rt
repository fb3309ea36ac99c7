// What is wrong with a text, and where.
ghost use Rattle.std.specs.Prelude.{◌≡◌};
ghost use Rattle.fields.specs.declared.fault.Expected.TheVariants.{Memory};

use crate::line::Line;
use std::alloc::AllocError;
use std::fmt;

// What a text should have had.
#[derive(Clone, Copy, PartialEq)]
pub enum Expected {
    // The word `circuit`.
    Circuit,
    // At most one name, of printable ASCII.
    Name,
    // The word `times`, `register`, `gate` or `end`.
    Statement,
    // A number.
    Number,
    // A number below 2^32.
    Small,
    // A table's name or number.
    Table,
    // Nothing after `end`.
    Nothing,
    // A line `end` before the text ends.
    End,
    // Memory to hold what is read.
    Memory,
    // The word of a line that tells delays and the like.
    FirstWord,
    // What such a line has after its first word.
    After(Line),
    // 0 or 1.
    Bit,
    // A register of the circuit.
    Register,
    // A line of which there is just one.
    Once(Line),
    // A line in order among those of its kind.
    NoEarlier(Line),
    // A line `cycles` before the text ends.
    Cycles,
    // The word of a claim, or `end`.
    Claim,
    // A whole number of 64 bits, which may have a sign.
    Whole,
    // Just so many numbers after a claim's word.
    Numbers(usize),
    // A line `end` before the text of a report ends.
    ReportEnd,
}

impl Expected {
    // What is said of it, where its words hold no number: up to a line that is named, this line, and what follows.
    fn words(self) -> (&'static str, &'static str, &'static str) {
        match self {
            Expected::Once(line) => ("expected just one line `", line.word(), "`"),
            Expected::NoEarlier(line) => (line.no_earlier(), line.word(), "` above"),
            other => (other.plain(), "", ""),
        }
    }

    // What is said of it, where its words hold no line and no number; else nothing.
    fn plain(self) -> &'static str {
        match self {
            Expected::Circuit => "expected a line `circuit` or `circuit NAME`",
            Expected::Name => "expected at most one name of printable ASCII after `circuit`",
            Expected::Statement =>
                "expected a line that begins with `times`, `register`, `gate` or `end`",
            Expected::Number => "expected a number",
            Expected::Small => "expected a number below 4294967296",
            Expected::Table => "expected the name or the number of a table",
            Expected::Nothing => "expected nothing after `end`",
            Expected::End => "expected a line `end`; the text ends inside a circuit",
            Expected::Memory => "memory is short",
            Expected::FirstWord =>
                "expected a line that begins with `cycles`, `start`, `random`, `clock`, `delay`, `show` \
                 or `take`",
            Expected::After(line) => line.after(),
            Expected::Bit => "expected 0 or 1",
            Expected::Register => "expected a register of the circuit",
            Expected::Cycles => "expected a line `cycles`; the text ends without one",
            Expected::Claim =>
                "expected a line that begins with `passed`, `too-late`, `too-early`, `from`, `through`, \
                 `margins`, `smallest`, `period` or `end`",
            Expected::Whole => "expected a whole number that fits 64 bits, with a sign or without",
            Expected::Numbers(1) => "expected 1 number after the line's word",
            Expected::ReportEnd => "expected a line `end`; the text ends inside a report",
            Expected::Once(_) | Expected::NoEarlier(_) | Expected::Numbers(_) => "",
        }
    }
}

impl fmt::Display for Expected {
    fn fmt<W: fmt::Write>(&self, f: &mut fmt::Formatter<W>) -> fmt::Result {
        match *self {
            Expected::Numbers(n) if n != 1 => write!(
                f,
                "expected {n} numbers after the line's word"
            ),
            other => {
                let (words, line, end) = other.words();
                write!(f, "{words}{line}{end}")
            }
        }
    }
}

// As it is said.
impl fmt::Debug for Expected {
    fn fmt<W: fmt::Write>(&self, f: &mut fmt::Formatter<W>) -> fmt::Result {
        fmt::Display::fmt(self, f)
    }
}

impl From<AllocError> for Expected {
    ghost from_gives = { λ _ e. e ≡ Memory };

    fn from(_: AllocError) -> Expected {
        Expected::Memory
    }
}

// A fault of a text: the line, counted from 1, and what was expected there.
#[derive(Clone, Copy, PartialEq)]
pub struct Fault {
    pub line: usize,
    pub expected: Expected,
}

impl fmt::Display for Fault {
    fn fmt<W: fmt::Write>(&self, f: &mut fmt::Formatter<W>) -> fmt::Result {
        write!(f, "{}: {}", self.line, self.expected)
    }
}

// As it is said.
impl fmt::Debug for Fault {
    fn fmt<W: fmt::Write>(&self, f: &mut fmt::Formatter<W>) -> fmt::Result {
        fmt::Display::fmt(self, f)
    }
}
