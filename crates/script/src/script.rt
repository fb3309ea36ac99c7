// All that a bench is told.
ghost use Rattle.std.specs.Prelude.{◌≡◌, MatchResult};
ghost use Rattle.script.specs.Pushed.{Empty, KeptAll, PushAnswer, entries};
ghost use Rattle.script.specs.Entries.{said_in};
ghost use Rattle.script.specs.Told.{MayBeTold};

use crate::entries::Entries;
use crate::entry::Entry;
use crate::kind::Kind;
use std::alloc::{AllocError, Global};

// How many cycles are to be run; the registers' bits at the start, if these are told, 0 of those past the list's end; a
// seed by which what is not told is chosen; and the statements of each kind.
#[derive(Drop)]
pub struct Script {
    pub cycles: u32,
    pub start: Option<Vec<bool>>,
    pub seed: Option<u64>,
    pub clocks: Entries,
    pub takes: Entries,
    pub delays: Entries,
    pub shows: Entries,
}

impl Script {
    // A script that tells nothing.
    pub fn new(heap: Global) -> Script
        ensures { Empty result }
    {
        Script {
            cycles: 0,
            start: None,
            seed: None,
            clocks: Entries::new(heap),
            takes: Entries::new(heap),
            delays: Entries::new(heap),
            shows: Entries::new(heap),
        }
    }

    // The statements of a kind. (`push` matches the kind too: a list handed out to write in would need a clause on what is
    // lent.)
    pub fn entries(&self, kind: Kind) -> &Entries
        ensures { result.now ≡ entries self.now kind }
    {
        match kind {
            Kind::Clock => &self.clocks,
            Kind::Take => &self.takes,
            Kind::Delay => &self.delays,
            Kind::Show => &self.shows,
        }
    }

    // One statement more of a kind, true; or false where it comes before another of its kind, and nothing is changed. That
    // is no error, as with a set's `insert`, so it stands beside the one error that there is.
    pub fn push(&mut self, kind: Kind, e: Entry) -> Result<bool, AllocError>
        ensures { MatchResult result (λ added. PushAnswer kind e self.old self.new added) (λ _. KeptAll kind self.old self.new) }
    {
        match kind {
            Kind::Clock => self.clocks.push(e),
            Kind::Take => self.takes.push(e),
            Kind::Delay => self.delays.push(e),
            Kind::Show => self.shows.push(e),
        }
    }

    // The last statement of a kind about a gate or register in cycle `n`.
    pub fn said_in(&self, kind: Kind, n: u64, who: usize) -> Option<Entry>
        ensures { result ≡ said_in (entries self.now kind) n who }
    {
        self.entries(kind).said_in(n, who)
    }
}

// What a script tells of which all lies within its bounds may be told, if a period takes time.
pub fn may_be_told() -> u8
    ensures { MayBeTold }
{
    0
}
