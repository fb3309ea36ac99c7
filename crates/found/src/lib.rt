//! The word of a line that stands where a text should have had another.
#![tactic(auto)]

ghost use Rattle.std.specs.Prelude.{◌≡◌, Contains, IfSome};
ghost use Rattle.lines.specs.Words.{words, bare};

use fields::Expected;
use lines::Words;

// Which word of a line is looked for.
#[derive(Clone, Copy)]
enum Wanted {
    // The one at a place, counted from 0.
    At(usize),
    // The first behind the line's first that is no number, but at the place of a table's name if there is one.
    NoNumber(Option<usize>),
    // The first behind the line's first that is neither 0 nor 1.
    NoBit,
}

impl Wanted {
    // Whether a word at a place is the one.
    fn is(self, place: usize, word: &[u8]) -> bool {
        match self {
            Wanted::At(n) => place == n,
            Wanted::NoNumber(table) => {
                place > 0 && table != Some(place) && lines::value(word).is_err()
            }
            Wanted::NoBit => place > 0 && !matches!(lines::value(word), Ok(0 | 1)),
        }
    }
}

// The first word of a line that is looked for.
fn first(line: &[u8], wanted: Wanted) -> Option<&[u8]>
    ensures { IfSome result (λ w. Contains (words line.now) w.now) }
{
    let mut words = Words::new(line);
    let mut place: usize = 0;
    while let Some(word) = words.next() {
        if wanted.is(place, word) {
            return Some(word);
        }
        place = place.saturating_add(1);
    }
    None
}

// The place of a table's name, on the line of a gate.
fn table_at(line: &[u8]) -> Option<usize> {
    match lines::word(line) {
        Some((word, _)) if lines::same(word, b"gate") => Some(3),
        _ => None,
    }
}

// A word that is no bit: of a line `start` the first, else the one behind a moment or cycle and a register.
fn no_bit(line: &[u8]) -> Wanted {
    match lines::word(line) {
        Some((word, _)) if lines::same(word, b"start") => Wanted::NoBit,
        _ => Wanted::At(3),
    }
}

// Whether a line has a third word.
fn has_third(line: &[u8]) -> bool {
    first(line, Wanted::At(2)).is_some()
}

// Which word of a line stands where another was expected.
fn place_of(line: &[u8], expected: Expected) -> Option<Wanted> {
    match expected {
        Expected::Circuit
        | Expected::Statement
        | Expected::FirstWord
        | Expected::Claim
        | Expected::Once(_) => Some(Wanted::At(0)),
        Expected::Name if has_third(line) => Some(Wanted::At(2)),
        Expected::Name | Expected::Nothing | Expected::NoEarlier(_) => Some(Wanted::At(1)),
        Expected::Register => Some(Wanted::At(2)),
        Expected::Table => Some(Wanted::At(3)),
        Expected::Number | Expected::Small | Expected::Whole => {
            Some(Wanted::NoNumber(table_at(line)))
        }
        Expected::Bit => Some(no_bit(line)),
        Expected::After(_)
        | Expected::Cycles
        | Expected::End
        | Expected::Memory
        | Expected::Numbers(_)
        | Expected::ReportEnd => None,
    }
}

/// The word of a line, without its comment, that stands where the line should have had what was expected; None where no word
/// stands there.
pub fn found(line: &[u8], expected: Expected) -> Option<&[u8]>
    ensures { IfSome result (λ w. Contains (words (bare line.now)) w.now) }
{
    let line = lines::bare(line);
    first(line, place_of(line, expected)?)
}
