// A circuit as it is read.
use crate::part::Part;
use lines::Lines;

// What a line is, by its first word.
#[derive(Clone, Copy)]
pub enum Keyword {
    Circuit,
    Times,
    Register,
    Gate,
    End,
}

// A line that has another count of numbers than it should: its part, and the line, counted from 1.
#[derive(Clone, Copy)]
pub struct Miscount {
    pub part: Part,
    pub line: usize,
}

// A circuit's name, empty where it has none (a word is never empty, so an Option would say no more), the line where it
// began, and its numbers in the order of their lines. Of the lines that have another count of numbers than they should,
// the first of the gates is kept, else of the registers, else of the times.
#[derive(Drop)]
pub struct Draft {
    pub name: Vec<u8>,
    pub line: usize,
    pub gates: Vec<u32>,
    pub registers: Vec<u32>,
    pub times: Vec<u32>,
    pub miscount: Option<Miscount>,
}

// Whether a circuit goes on after a line.
#[derive(Clone, Copy)]
pub enum Progress {
    More,
    Done,
}

// A circuit that was read, with the lines after it.
#[derive(Drop)]
pub struct Read<'a> {
    pub draft: Draft,
    pub rest: Lines<'a>,
}
