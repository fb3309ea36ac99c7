// The fields of a line: numbers, and a table by its name; and what a text should have had where it is at fault.
#![tactic(auto)]

ghost use Rattle.std.specs.Prelude.{◌≡◌, ℕ, length, position};
ghost use Rattle.std.specs.Str.{bytes_eq};
ghost use Rattle.lines.specs.Words.{words};
ghost use Rattle.fields.specs.Fields.{named, name_of, field, fields, wanted, FieldsRead, NextField};

use lines::{Unread, Words};

mod fault;
mod line;

pub use fault::{Expected, Fault};
pub use line::Line;

impl From<Unread> for Expected {
    ghost from_gives = { λ u e. e ≡ wanted u };

    fn from(unread: Unread) -> Expected {
        match unread {
            Unread::NoDigit => Expected::Number,
            Unread::TooLarge => Expected::Small,
        }
    }
}

// The names of the tables, in order.
const NAMES: [&str; 16] = [
    "never",
    "nor",
    "first-only",
    "not-second",
    "second-only",
    "not-first",
    "xor",
    "nand",
    "and",
    "xnor",
    "first",
    "first-or-not-second",
    "second",
    "second-or-not-first",
    "or",
    "always",
];

// The place of a word among names.
fn place(w: &[u8], names: &[&str]) -> Option<usize>
    ensures { result ≡ position (λ n. bytes_eq w.now n.now) names.now }
{
    names.iter().position(|n| lines::same(w, n.as_bytes()))
}

// The table that a word names.
#[tactic(auto, unfolding(crate::specs::Fields::named))]
pub fn table_of(w: &[u8]) -> Option<u32>
    ensures { result ≡ named w.now }
{
    let k = place(w, &NAMES)?;
    Some(k as u32)
}

// The name of a table; empty past the sixteen.
pub fn name_of(table: u32) -> &'static str
    ensures { result.now ≡ name_of table }
{
    NAMES.get(table as usize).copied().unwrap_or("")
}

// A number, or where a table may stand its name. Where numbers are capped one of 2^32 or more is read as 2^32 - 1.
#[tactic(auto, unfolding(crate::specs::Fields::field))]
fn field(word: &[u8], capped: bool, may_be_table: bool) -> Result<u32, Expected>
    ensures { result ≡ field capped may_be_table word.now }
{
    match lines::value(word) {
        Err(Unread::NoDigit) if may_be_table => table_of(word).ok_or(Expected::Table),
        Err(Unread::TooLarge) if capped => Ok(u32::MAX),
        number => Ok(number?),
    }
}

// The next word as a number, or where a table may stand by its name; None where there is no word.
#[inline(always)]
fn next(words: &mut Words, capped: bool, may_be_table: bool) -> Result<Option<u32>, Expected>
    ensures { NextField capped may_be_table words.old words.new result }
{
    // Most words are numbers, which are read as they are passed over.
    if let Some(number) = words.number() {
        return Ok(Some(number));
    }
    match words.next() {
        Some(word) => Ok(Some(field(word, capped, may_be_table)?)),
        None => Ok(None),
    }
}

/// Whether a line has just as many numbers as `out` has places, which then holds them.
// In column `table_at`, if there is one, a table's name may stand. Where they are `capped` one of 2^32 or more is read as
// 2^32 - 1, else it is a fault. What `out` holds else is not said.
#[inline(always)]
pub fn read_into(
    line: &[u8],
    capped: bool,
    table_at: Option<usize>,
    out: &mut [u32],
) -> Result<bool, Expected>
    ensures { FieldsRead (fields capped table_at 0 (length out.old) (words line.now)) out.new result }
{
    let mut words = Words::new(line);
    for (i, number) in out.iter_mut().enumerate() {
        let named = table_at == Some(i);
        let Some(field) = next(&mut words, capped, named)? else {
            return Ok(false);
        };
        *number = field;
    }
    match words.next() {
        None => Ok(true),
        Some(_) => Ok(false),
    }
}

// The numbers of a line that has just N, and None where it has fewer or more. In column `table_at`, if there
// is one, a table's name may stand. Where they are `capped` one of 2^32 or more is read as 2^32 - 1, else it is a fault.
pub fn read<const N: usize>(
    line: &[u8],
    capped: bool,
    table_at: Option<usize>,
) -> Result<Option<[u32; N]>, Expected>
    ensures { result ≡ fields capped table_at 0 N (words line.now) }
{
    let mut numbers = [0; N];
    if read_into(line, capped, table_at, &mut numbers)? {
        Ok(Some(numbers))
    } else {
        Ok(None)
    }
}
