// A text that is read line by line.
ghost use Rattle.std.specs.Prelude.{◌≡◌, ℕ, ◌<◌, false, true, IfErr, IfOk, OnErr, List, [], ◌++◌, length, vec_items};
ghost use Rattle.std.specs.Io.KnownBytes.{Consumes, IsAtEnd};
ghost use Rattle.input.specs.Line.{shown};
ghost use Rattle.input.specs.Pending.{at_hand, pending, number_of, Same, Comes, Faults};

use crate::text::{Misread, Next, Text};
use std::alloc::Global;
use std::io;
use std::io::Read;

// So many bytes are read at once at most.
const PIECE: usize = 65_536;

/// A text that is read line by line, without its comments. It keeps a piece of at most 64 KiB, and one line.
#[derive(Drop)]
pub struct Feed<R: Drop> {
    reader: R,
    text: Text,
}

impl<R: Read + Drop> Feed<R> {
    /// At the beginning of the text that the reader gives.
    pub fn new(heap: Global, reader: R) -> Self
        ensures { (pending result.text ≡ []) × (result.text.ended ≡ false)
            × (result.text.number ≡ 0) × (result.text.whole ≡ false)
            × (number_of result.text ≡ 1) × (result.reader ≡ reader) }
    {
        Feed {
            reader,
            text: Text::new(heap),
        }
    }

    /// Goes on to the next line as far as what was read reaches. After a fault it stays there, and finds it again.
    pub fn next(&mut self) -> Result<Next, Misread>
        ensures comes { IfOk result (λ n. Comes self.old.text self.new.text n) }
        ensures fault { IfErr result (λ e. Faults self.old.text e
            × Same self.old.text self.new.text × (self.new.text.whole ≡ false)) }
        ensures reader { self.new.reader ≡ self.old.reader }
    {
        self.text.next()
    }

    /// Reads on: at least a byte, if the text goes on. While something that was read is still at hand it reads nothing.
    /// After an error it is as before, but for what the reader gave.
    // Not inlined, so that the piece is on the stack for no longer.
    #[inline(never)]
    pub fn more(&mut self) -> io::Result<()>
        ensures read { IfOk result (λ _. (m : List ℕ)
            × (pending self.new.text ≡ pending self.old.text ++ m)
            × Consumes (R.remaining self.old.reader) (R.remaining self.new.reader) m) }
        ensures some { IfOk result (λ _. self.new.text.ended ≡ false → 0 < length (at_hand self.new.text)) }
        ensures end { IfOk result (λ _. at_hand self.old.text ≡ []
            → self.new.text.ended ≡ true → IsAtEnd (R.remaining self.new.reader)) }
        ensures err { OnErr result ((pending self.new.text ≡ pending self.old.text)
            × (self.new.text.ended ≡ self.old.text.ended)) }
        ensures waits { (at_hand self.old.text ≡ [] → ⊥)
            → (self.new.text ≡ self.old.text) × (self.new.reader ≡ self.old.reader) }
        ensures line { (self.new.text.line ≡ self.old.text.line)
            × (number_of self.new.text ≡ number_of self.old.text)
            × (self.new.text.number ≡ self.old.text.number) × (self.new.text.whole ≡ self.old.text.whole) }
    {
        if self.text.has_some() {
            return Ok(());
        }
        let mut piece = [0; PIECE];
        let n = self.reader.read(&mut piece)?;
        self.text.refill(&piece[..n])?;
        Ok(())
    }

    /// The line that was handed out last, without its comment, its newline and a byte order mark at the text's beginning.
    pub fn line(&self) -> &[u8]
        ensures { result.now ≡ shown self.now.text.number (vec_items self.now.text.line) }
    {
        self.text.line()
    }

    /// Its number, counted from 1; after a fault that of the line that it is about, and at the text's end the number of
    /// lines and 1.
    pub fn number(&self) -> usize
        ensures { result ≡ number_of self.now.text }
    {
        self.text.number()
    }
}
