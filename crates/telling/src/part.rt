// What is told of gates or registers, from moment to moment.
ghost use Rattle.std.specs.Prelude.{◌≡◌, ◌≤◌, None, replicate, IfOk};
ghost use Rattle.circuit.specs.Checked.{gates_of, registers_of};
ghost use Rattle.script.specs.Entries.{Ordered};
ghost use Rattle.telling.specs.Parts.{places, PartNew, PartOn, DelaysTold, ShowsTold};
ghost use Rattle.telling.specs.Said.{KeptOn};

use crate::said::{fill_delays, fill_shows};
use clocks::Bench;
use script::Entry;
use std::alloc::{AllocError, Global};
use step::Delays;

// What is told now of each gate or register, the last statement about each so far, and how many statements that takes in.
// The values stand in a list of their own, since they alone are lent, as one slice.
#[derive(Drop)]
pub struct Part<V> {
    pub values: Vec<V>,
    pub(crate) said: Vec<Option<Entry>>,
    pub(crate) done: usize,
}

// Nothing said of `n` gates or registers.
fn none_said(heap: Global, n: usize) -> Result<Vec<Option<Entry>>, AllocError>
    ensures { IfOk result (λ v. v.items ≡ replicate n None) }
{
    vec![in heap; None; n]
}

impl<V: Copy> Part<V> {
    // Places for `n` gates or registers, of which nothing is said yet.
    pub(crate) fn new(heap: Global, n: usize, value: V) -> Result<Part<V>, AllocError>
        ensures { IfOk result (λ y. PartNew n y) }
    {
        let values = vec![in heap; value; n]?;
        let said = none_said(heap, n)?;
        Ok(Part {
            values,
            said,
            done: 0,
        })
    }

    // How many gates or registers have a place.
    pub(crate) fn places(&self) -> usize
        ensures { result ≡ places self.now }
    {
        self.values.len().min(self.said.len())
    }
}

impl Part<Delays> {
    // The delays of all gates at moment `t`, by the last statement about each.
    pub(crate) fn tell_delays(&mut self, bench: Bench<'_>, t: u64)
        requires { gates_of bench.circuit ≤ places self.old }
        ensures on { PartOn bench.entry.script.now.delays t self.old self.new }
        ensures told { DelaysTold bench.entry.script.now bench.entry.circuit.gates.now t self.new }
    {
        self.done = keep_said(bench.script.delays.as_slice(), t, self.done, &mut self.said);
        fill_delays(bench, t, &self.said, &mut self.values);
    }
}

impl Part<bool> {
    // What all registers show at moment `t` where they may show anything, by the last statement about each.
    pub(crate) fn tell_shows(&mut self, bench: Bench<'_>, t: u64)
        requires { registers_of bench.circuit ≤ places self.old }
        ensures on { PartOn bench.entry.script.now.shows t self.old self.new }
        ensures told { ShowsTold bench.entry.script.now bench.entry.circuit.registers.now t self.new }
    {
        self.done = keep_said(bench.script.shows.as_slice(), t, self.done, &mut self.said);
        fill_shows(bench, t, &self.said, &mut self.values);
    }
}

// Keeps the statements up to moment `t`, the first `done` being kept, for each gate or register that has a place; how
// many are kept then.
fn keep_said(entries: &[Entry], t: u64, done: usize, said: &mut [Option<Entry>]) -> usize
    requires { Ordered entries.now }
    ensures { KeptOn entries.now t done said.old result said.new }
{
    let mut due = done;
    while due < entries.len() && u64::from(entries[due].when) <= t {
        let who = entries[due].who as usize;
        if who < said.len() {
            said[who] = Some(entries[due]);
        }
        due += 1;
    }
    due
}
