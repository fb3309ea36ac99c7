//! Circuits of a file or of standard input, read line by line in bounded memory.
#![tactic(auto)]

ghost use Rattle.std.specs.Prelude.{◌≡◌, ℕ, ◌<◌, List, [], length, None, false, true, IfErr, IfOk, OnErr, vec_items};
ghost use Rattle.std.specs.Option.{option_map};
ghost use Rattle.std.specs.Io.KnownBytes.{Consumes, IsAtEnd};
ghost use Rattle.input.specs.Line.{shown};
ghost use Rattle.input.specs.Pending.{at_hand, number_of, pending};
ghost use Rattle.text.specs.Reader.{listed};
ghost use Rattle.circuits.specs.Coming.{AtEnd, Comes, CommentsMeanNothing, LineTaken, MeansAsWhole, ReadsOn, Stops, Turns};

#[cfg(test)]
mod tests;

use fields::{Expected, Fault};
use input::{Feed, Misread};
use std::alloc::Global;
use std::io;
use std::io::Read;
use text::{Listing, Reader};

/// What comes next of a text of circuits.
#[derive(Drop)]
pub enum Next {
    /// A circuit, which ended on the line that was read last.
    Circuit(Listing),
    /// More has to be read first.
    Nothing,
    /// The text has ended, and no circuit is open.
    End,
}

/// What is wrong with a text of circuits.
#[derive(Clone, Copy)]
pub enum Wrong {
    /// What a line should have had, or memory is short on it.
    Fault(Fault),
    /// What no text has on its next line, or memory is short.
    Misread(Misread),
}

/// The circuits of a text, one after another, in memory for a piece of 64 KiB, one line and one circuit.
#[derive(Drop)]
pub struct Circuits<R: Drop> {
    feed: Feed<R>,
    reader: Reader,
}

impl<R: Read + Drop> Circuits<R> {
    /// At the beginning of the text that the reader gives.
    pub fn new(heap: Global, reader: R) -> Self
        ensures { (result.reader.current ≡ None) × (pending result.feed.text ≡ [])
            × (result.feed.text.number ≡ 0) × (result.feed.text.whole ≡ false)
            × (result.feed.text.ended ≡ false) × (result.feed.reader ≡ reader) }
    {
        Circuits {
            feed: Feed::new(heap, reader),
            reader: Reader::new(),
        }
    }

    // Takes the line that was handed out; answers the circuit that ends on it, if one does.
    fn take(&mut self, heap: Global) -> Result<Option<Listing>, Wrong>
        ensures line { LineTaken (option_map listed self.old.reader.current) self.old.feed.text
            (option_map listed self.new.reader.current) result }
        ensures feed { self.new.feed ≡ self.old.feed }
    {
        self.reader
            .bare_line(heap, self.feed.line(), self.feed.number())
            .map_err(Wrong::Fault)
    }

    // At the text's end, which has to come outside of a circuit.
    fn end(&self) -> Result<Option<Next>, Wrong>
        ensures { AtEnd (option_map listed self.now.reader.current) self.now.feed.text result }
    {
        if self.reader.is_inside() {
            return Err(Wrong::Fault(Fault {
                line: self.feed.number(),
                expected: Expected::End,
            }));
        }
        Ok(Some(Next::End))
    }

    // Goes on to the next line; None where it ends no circuit.
    fn turn(&mut self, heap: Global) -> Result<Option<Next>, Wrong>
        ensures turns { Turns (option_map listed self.old.reader.current) self.old.feed.text
            (option_map listed self.new.reader.current) self.new.feed.text result }
        ensures reader { self.new.feed.reader ≡ self.old.feed.reader }
    {
        match self.feed.next() {
            Ok(input::Next::Line) => match self.take(heap) {
                Ok(Some(listing)) => Ok(Some(Next::Circuit(listing))),
                Ok(None) => Ok(None),
                Err(wrong) => Err(wrong),
            },
            Ok(input::Next::Nothing) => Ok(Some(Next::Nothing)),
            Ok(input::Next::End) => self.end(),
            Err(misread) => Err(Wrong::Misread(misread)),
        }
    }

    /// Goes on to the end of the next circuit, as far as what was read reaches.
    pub fn next(&mut self, heap: Global) -> Result<Next, Wrong>
        ensures comes { IfOk result (λ n. Comes (option_map listed self.old.reader.current) self.old.feed.text
            (option_map listed self.new.reader.current) self.new.feed.text n) }
        ensures stops { IfErr result (λ e. Stops (option_map listed self.old.reader.current) self.old.feed.text
            (option_map listed self.new.reader.current) self.new.feed.text e) }
        ensures reader { (self.new.feed.reader ≡ self.old.feed.reader)
            × (self.new.feed.text.ended ≡ self.old.feed.text.ended) }
    {
        loop {
            if let Some(next) = self.turn(heap)? {
                return Ok(next);
            }
        }
    }

    /// Reads on: at least a byte, if the text goes on; nothing while something that was read is still at hand.
    pub fn more(&mut self) -> io::Result<()>
        ensures read { IfOk result (λ _. (m : List ℕ) × ReadsOn self.old.feed.text self.new.feed.text m
            × Consumes (R.remaining self.old.feed.reader) (R.remaining self.new.feed.reader) m) }
        ensures some { IfOk result (λ _. self.new.feed.text.ended ≡ false → 0 < length (at_hand self.new.feed.text)) }
        ensures end { IfOk result (λ _. at_hand self.old.feed.text ≡ []
            → self.new.feed.text.ended ≡ true → IsAtEnd (R.remaining self.new.feed.reader)) }
        ensures err { OnErr result (ReadsOn self.old.feed.text self.new.feed.text []
            × (self.new.feed.text.ended ≡ self.old.feed.text.ended)) }
        ensures waits { (at_hand self.old.feed.text ≡ [] → ⊥) → self.new.feed ≡ self.old.feed }
        ensures line { (self.new.reader ≡ self.old.reader)
            × (self.new.feed.text.line ≡ self.old.feed.text.line)
            × (number_of self.new.feed.text ≡ number_of self.old.feed.text) }
    {
        self.feed.more()
    }

    /// The line that was read last; after a fault the one that it is about.
    // It has neither its comment nor its newline, nor a byte order mark at the text's beginning.
    pub fn line(&self) -> &[u8]
        ensures { result.now ≡ shown self.now.feed.text.number (vec_items self.now.feed.text.line) }
    {
        self.feed.line()
    }

    /// The number of the line that was read last, or after something wrong of the one that it is about, counted from 1.
    // At the text's end, and where more has to be read, it is the next line's.
    pub fn number(&self) -> usize
        ensures { result ≡ number_of self.now.feed.text }
    {
        self.feed.number()
    }
}

/// Lines mean what they mean without their comments.
pub fn comments_mean_nothing() -> u8
    ensures { CommentsMeanNothing }
{
    0
}

/// Read piece by piece a text means what it means as a whole, but for what no circuit has.
pub fn means_as_whole() -> u8
    ensures { MeansAsWhole }
{
    0
}
