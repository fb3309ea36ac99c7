// The statements of one kind.
ghost use Rattle.std.specs.Prelude.{◌≡◌, [], reverse, MatchResult, find};
ghost use Rattle.script.specs.Entries.{about, Ordered, Added, said_in};

use crate::entry::Entry;
use std::alloc::{AllocError, Global};
use std::marker::Model;

// Statements in order of their moments or cycles. Of several about the same the last counts.
// A list and no map: their order is kept, and every line is needed.
#[derive(Drop)]
pub struct Entries {
    list: Vec<Entry>,
}

impl Model for Entries {
    ghost use Rattle.std.specs.Prelude.{List};
    ghost use Rattle.script.specs.declared.entry.Entry.{Entry};
    ghost use Rattle.script.specs.Entries.{Ordered};

    ghost Value = { List Entry };

    ghost view = { λ s. s.list.items };

    ghost invariant = { λ s. Ordered s.list.items };
}

impl Entries {
    // No statement.
    pub(crate) fn new(heap: Global) -> Entries
        ensures { result ≡ [] }
    {
        Entries {
            list: Vec::new(heap),
        }
    }

    // The statements, in order.
    pub fn as_slice(&self) -> &[Entry]
        ensures items { result.now ≡ self.now }
        ensures ordered { Ordered self.now }
    {
        self.list.as_slice()
    }

    // One statement more, true; or false where it comes before another, and nothing is changed.
    pub fn push(&mut self, e: Entry) -> Result<bool, AllocError>
        ensures { MatchResult result (λ added. Added e self.old self.new added) (λ _. self.new ≡ self.old) }
    {
        let fits = self.list.last().is_none_or(|last| last.when <= e.when);
        if fits {
            self.list.push(e)?;
        }
        Ok(fits)
    }

    // The last statement about a gate or register in cycle `n`.
    pub(crate) fn said_in(&self, n: u64, who: usize) -> Option<Entry>
        ensures { result ≡ said_in self.now n who }
    {
        let past = self.list.partition_point(|e| u64::from(e.when) <= n);
        let upto = &self.list[..past];
        let first = upto.partition_point(|e| u64::from(e.when) < n);
        last_about(&upto[first..], who)
    }
}

// The last statement about a gate or register.
fn last_about(entries: &[Entry], who: usize) -> Option<Entry>
    ensures { result ≡ find (about who) (reverse entries.now) }
{
    entries
        .iter()
        .rev()
        .find(|e| e.who as usize == who)
        .copied()
}
