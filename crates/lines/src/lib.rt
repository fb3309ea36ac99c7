// Lines, words and numbers of a text of bytes.
#![tactic(auto)]

ghost use Rattle.std.specs.Prelude.{◌≡◌, ℕ, ◌+◌, ◌<◌, ◌≤◌, ◌==◌, ◌↔◌, not, length, slice_index, IsTrue, MatchOption};
ghost use Rattle.std.specs.Int.{IsInRange};
ghost use Rattle.std.specs.List.{prefix_len};
ghost use Rattle.std.specs.Str.{bytes_eq};
ghost use Rattle.lines.specs.Numbers.{number, FirstDigits, FirstNumber, IsNoNumber};
ghost use Rattle.lines.specs.Words.{blank, ink, bare, words, FirstWord, FirstLine};

mod cursor;

pub use cursor::{Lines, Words};

const SPACE: u8 = b' ';

const TAB: u8 = b'\t';

const RETURN: u8 = b'\r';

const COMMENT: u8 = b'#';

// The least number that is too large.
const LIMIT: u64 = 1 << 32;

// Why a word is no number.
#[derive(Clone, Copy)]
pub enum Unread {
    // It has another byte than a digit.
    NoDigit,
    // It is 2^32 or more.
    TooLarge,
}

// Whether two words are the same: the `==` of slices, by the name under which a contract can cite it.
pub fn same(w: &[u8], v: &[u8]) -> bool
    ensures { result ≡ bytes_eq w.now v.now }
{
    w == v
}

#[tactic(auto, unfolding(crate::specs::Words::blank))]
fn is_blank(b: u8) -> bool
    ensures { result ≡ blank b }
{
    matches!(b, SPACE | TAB | RETURN)
}

// How many bytes stand before the first `mark`.
fn until(s: &[u8], mark: u8) -> usize
    ensures count { result ≡ prefix_len (λ b. not (b == mark)) s.now }
    ensures within { result ≤ length s.now }
{
    let mut n = 0;
    while n < s.len() && s[n] != mark {
        n += 1;
    }
    n
}

// The first line, and what follows its newline; None at the text's end.
pub fn line(s: &[u8]) -> Option<(&[u8], &[u8])>
    ensures { FirstLine s.now result }
{
    if s.is_empty() {
        return None;
    }
    let (line, rest) = s.split_at(until(s, b'\n'));
    match rest {
        [_, after @ ..] => Some((line, after)),
        [] => Some((line, rest)),
    }
}

// What stands before a comment.
pub fn bare(s: &[u8]) -> &[u8]
    ensures { result.now ≡ bare s.now }
{
    &s[..until(s, COMMENT)]
}

// How many blanks stand first.
fn blanks(s: &[u8]) -> usize
    ensures count { result ≡ prefix_len blank s.now }
    ensures within { result ≤ length s.now }
{
    let mut n = 0;
    while n < s.len() && is_blank(s[n]) {
        n += 1;
    }
    n
}

// How many bytes stand before the first blank.
fn inked(s: &[u8]) -> usize
    ensures count { result ≡ prefix_len ink s.now }
    ensures within { result ≤ length s.now }
{
    let mut n = 0;
    while n < s.len() && !is_blank(s[n]) {
        n += 1;
    }
    n
}

// The first word, and what follows it; None where there is none.
#[tactic(auto, using(crate::proofs::WordLaws::first_word, crate::proofs::WordLaws::no_words))]
pub fn word(s: &[u8]) -> Option<(&[u8], &[u8])>
    ensures { FirstWord s.now result }
{
    let (_, rest) = s.split_at(blanks(s));
    match inked(rest) {
        0 => None,
        n => Some(rest.split_at(n)),
    }
}

// The number that the digits at the front are, at most the limit, and how many they are.
fn leading(s: &[u8]) -> (u64, usize)
    ensures within { result.1 ≤ length s.now }
    ensures value { FirstDigits s.now result.1 result.0 }
    ensures stops { result.1 < length s.now → IsInRange 48 57 (slice_index s.now result.1) → ⊥ }
{
    let mut n: u64 = 0;
    let mut i = 0;
    while i < s.len() && s[i].is_ascii_digit() {
        // Past the limit the rest is still looked at, since a word with another byte is no number at all.
        n = (n * 10 + u64::from(s[i] - b'0')).min(LIMIT);
        i += 1;
    }
    (n, i)
}

// The number that a word is: digits alone, where `str::parse` takes a sign too.
pub fn value(word: &[u8]) -> Result<u32, Unread>
    ensures { result ≡ number word.now }
{
    let (n, digits) = leading(word);
    if digits == 0 || digits < word.len() {
        return Err(Unread::NoDigit);
    }
    if n == LIMIT {
        return Err(Unread::TooLarge);
    }
    Ok(n as u32)
}

// Whether no word goes on with this.
fn is_between(s: &[u8]) -> bool
    ensures { IsTrue result ↔ (prefix_len ink s.now ≡ 0) }
{
    s.is_empty() || is_blank(s[0])
}

/// The number that the first word is, and what follows it; None where it is no number below 2^32, or there is no word.
#[inline]
pub fn first_number(s: &[u8]) -> Option<(u32, &[u8])>
    ensures { MatchOption result (IsNoNumber (words s.now)) (λ x. FirstNumber s.now x.0 x.1.now) }
{
    let (_, rest) = s.split_at(blanks(s));
    let (n, digits) = leading(rest);
    let (_, after) = rest.split_at(digits);
    if digits == 0 || n == LIMIT || !is_between(after) {
        return None;
    }
    Some((n as u32, after))
}
