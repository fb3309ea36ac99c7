// What was read of a text and is not handed out yet.
ghost use Rattle.std.specs.Prelude.{◌≡◌, ℕ, ◌+◌, ◌-◌, ◌^◌, ◌≤◌, min, ◌==◌, not, true, false, IfErr, IfOk, IsTrue, ◌↔◌, OnErr, OnOk, List, [], ◌++◌, drop, length, slice_index_or, take, vec_items};
ghost use Rattle.std.specs.List.{list_all, prefix_len};
ghost use Rattle.lines.specs.Words.{inline};
ghost use Rattle.input.specs.Line.{kept, shown};

use std::alloc::{AllocError, Global};
use std::fmt;

// The most bytes of a line without its comment.
const LIMIT: usize = 1_048_576;

// With it a comment begins.
const COMMENT: u8 = b'#';

const NUL: u8 = 0;

// What a text may begin with, to say that it is UTF-8.
const MARK: [u8; 3] = [0xef, 0xbb, 0xbf];

/// What comes next of a text.
#[derive(Clone, Copy, PartialEq)]
pub enum Next {
    /// A line, which `line` shows.
    Line,
    /// More has to be read first.
    Nothing,
    /// The text has ended.
    End,
}

/// What is wrong with a text whatever its format.
#[derive(Clone, Copy, PartialEq)]
pub enum Misread {
    /// A NUL byte outside of a comment.
    Nul,
    /// A line longer than 1,048,576 bytes without its comment.
    TooLong,
    /// Memory is short.
    Memory,
}

impl fmt::Display for Misread {
    fn fmt<W: fmt::Write>(&self, f: &mut fmt::Formatter<W>) -> fmt::Result {
        f.write_str(match self {
            Misread::Nul => "found a NUL byte, which no text has",
            Misread::TooLong => "expected a line of at most 1048576 bytes",
            Misread::Memory => "memory is short",
        })
    }
}

impl From<AllocError> for Misread {
    ghost use Rattle.input.specs.declared.text.Misread.TheVariants.{Memory};

    ghost from_gives = { λ _ e. e ≡ Memory };

    fn from(_: AllocError) -> Misread {
        Misread::Memory
    }
}

// Whether a line can have a byte before its comment.
fn is_kept(b: u8) -> bool
    ensures { result ≡ kept b }
{
    b != b'\n' && b != COMMENT && b != NUL
}

// How many bytes stand before the first newline, number sign or NUL.
fn kept(s: &[u8]) -> usize
    ensures count { result ≡ prefix_len kept s.now }
    ensures within { result ≤ length s.now }
{
    let mut n = 0;
    while n < s.len() && is_kept(s[n]) {
        n += 1;
    }
    n
}

// How many bytes stand before the first newline.
fn before_newline(s: &[u8]) -> usize
    ensures count { result ≡ prefix_len inline s.now }
    ensures within { result ≤ length s.now }
{
    let mut n = 0;
    while n < s.len() && s[n] != b'\n' {
        n += 1;
    }
    n
}

// The byte at an index; a newline where there is none.
fn byte_at(s: &[u8], i: usize) -> u8
    ensures { result ≡ slice_index_or s.now i 10 }
{
    if i < s.len() { s[i] } else { b'\n' }
}

// Appends n bytes of a piece, from an index on.
fn append(line: &mut Vec<u8>, piece: &[u8], from: usize, n: usize) -> Result<(), AllocError>
    requires { from + n ≤ length piece.now }
    ensures ok { OnOk result (vec_items line.new ≡ vec_items line.old ++ take n (drop from piece.now)) }
    ensures err { OnErr result (vec_items line.new ≡ vec_items line.old) }
{
    line.extend_from_slice(&piece[from..from + n])
}

// The piece that was read last, which is still needed from `at` on; and the line so far, or the one that was handed out.
#[derive(Drop)]
pub(crate) struct Text {
    chunk: Vec<u8>,
    at: usize,
    line: Vec<u8>,
    // Whether the line's comment has begun.
    comment: bool,
    // How many lines were handed out.
    number: usize,
    // Whether the line was handed out.
    whole: bool,
    // Whether nothing follows the piece.
    ended: bool,
    ghost within: { at ≤ length (vec_items chunk) },
    ghost small: { length (vec_items chunk) ≤ 65536 },
    ghost clean: { list_all kept (vec_items line) ≡ true },
    ghost short: { length (vec_items line) ≤ 1048576 },
}

impl Text {
    ghost use Rattle.input.specs.Pending.{at_hand, pending, number_of, Same, SameLines, Comes, Faults};

    pub(crate) fn new(heap: Global) -> Self
        ensures { (pending result ≡ []) × (result.ended ≡ false)
            × (result.number ≡ 0) × (result.whole ≡ false) }
    {
        Text {
            chunk: Vec::new(heap),
            at: 0,
            line: Vec::new(heap),
            comment: false,
            number: 0,
            whole: false,
            ended: false,
        }
    }

    // What of the piece is still needed.
    fn at_hand(&self) -> &[u8]
        ensures { result.now ≡ at_hand self.now }
    {
        &self.chunk[self.at..]
    }

    // Whether something of the piece is still needed.
    pub(crate) fn has_some(&self) -> bool
        ensures { IsTrue result ↔ (at_hand self.now ≡ [] → ⊥) }
    {
        !self.at_hand().is_empty()
    }

    // Takes the piece that was read next, which is empty at the text's end.
    pub(crate) fn refill(&mut self, piece: &[u8]) -> Result<(), AllocError>
        requires none_left { at_hand self.old ≡ [] }
        requires small { length piece.now ≤ 65536 }
        ensures ok { OnOk result ((pending self.new ≡ pending self.old ++ piece.now)
            × (at_hand self.new ≡ piece.now) × (IsTrue self.new.ended ↔ (piece.now ≡ []))) }
        ensures err { OnErr result ((pending self.new ≡ pending self.old)
            × (at_hand self.new ≡ []) × (self.new.ended ≡ self.old.ended)) }
        ensures line { (self.new.line ≡ self.old.line)
            × (self.new.number ≡ self.old.number) × (self.new.whole ≡ self.old.whole) }
    {
        self.chunk.clear();
        self.at = 0;
        self.chunk.extend_from_slice(piece)?;
        self.ended = piece.is_empty();
        Ok(())
    }

    // Forgets a line that was handed out.
    fn forget(&mut self)
        ensures same { Same self.old self.new }
        ensures whole { self.new.whole ≡ false }
    {
        if self.whole {
            self.line.clear();
            self.comment = false;
            self.whole = false;
        }
    }

    // Takes what stands before the line's end and before its comment.
    fn take(&mut self) -> Result<(), Misread>
        requires { self.old.whole ≡ false }
        ensures same { Same self.old self.new }
        ensures whole { self.new.whole ≡ false }
        ensures stop { OnOk result (self.new.comment ≡ false → prefix_len inline (at_hand self.new) ≡ 0) }
        ensures fault { IfErr result (λ e. Faults self.old e) }
    {
        if self.comment {
            return Ok(());
        }
        let n = kept(self.at_hand());
        if n > LIMIT - self.line.len() {
            return Err(Misread::TooLong);
        }
        let stop = byte_at(&self.chunk, self.at + n);
        if stop == NUL {
            return Err(Misread::Nul);
        }
        append(&mut self.line, &self.chunk, self.at, n)?;
        self.at += n;
        if stop == COMMENT {
            self.comment = true;
            self.at += 1;
        }
        Ok(())
    }

    // Passes over the line's comment.
    fn pass(&mut self)
        requires whole { self.old.whole ≡ false }
        requires stop { self.old.comment ≡ false → prefix_len inline (at_hand self.old) ≡ 0 }
        ensures lines { SameLines (pending self.old) (pending self.new) }
        ensures kept { (self.new.whole ≡ false)
            × (self.new.number ≡ self.old.number) × (self.new.ended ≡ self.old.ended) }
        ensures stop { prefix_len inline (at_hand self.new) ≡ 0 }
    {
        if self.comment {
            self.at += before_newline(self.at_hand());
        }
    }

    // Hands out the line as it is.
    fn count(&mut self)
        ensures counted { self.new.number ≡ min (self.old.number + 1) (2 ^ 64 - 1) }
        ensures whole { self.new.whole ≡ true }
        ensures kept { (self.new.line ≡ self.old.line) × (self.new.chunk ≡ self.old.chunk)
            × (self.new.at ≡ self.old.at) × (self.new.ended ≡ self.old.ended) }
    {
        self.whole = true;
        self.number = self.number.saturating_add(1);
    }

    // Hands out the line, if what was read has its end.
    fn hand_out(&mut self) -> Next
        requires whole { self.old.whole ≡ false }
        requires stop { prefix_len inline (at_hand self.old) ≡ 0 }
        ensures { Comes self.old self.new result }
    {
        if self.at < self.chunk.len() {
            self.at += 1;
            self.count();
            return Next::Line;
        }
        if !self.ended {
            return Next::Nothing;
        }
        if self.line.is_empty() && !self.comment {
            return Next::End;
        }
        self.count();
        Next::Line
    }

    pub(crate) fn next(&mut self) -> Result<Next, Misread>
        ensures comes { IfOk result (λ n. Comes self.old self.new n) }
        ensures fault { IfErr result (λ e. Faults self.old e
            × Same self.old self.new × (self.new.whole ≡ false)) }
    {
        self.forget();
        if let Err(e) = self.take() {
            return Err(e);
        }
        self.pass();
        Ok(self.hand_out())
    }

    pub(crate) fn line(&self) -> &[u8]
        ensures { result.now ≡ shown self.now.number (vec_items self.now.line) }
    {
        if self.number == 1 {
            return self.line.strip_prefix(&MARK).unwrap_or(&self.line);
        }
        &self.line
    }

    pub(crate) fn number(&self) -> usize
        ensures { result ≡ number_of self.now }
    {
        if self.whole {
            return self.number;
        }
        self.number.saturating_add(1)
    }
}
