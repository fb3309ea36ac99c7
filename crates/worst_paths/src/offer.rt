// A row as it is given to a gate or a register.
ghost use Rattle.std.specs.Prelude.{◌≡◌, ◌+◌, ◌^◌, ◌<◌, length, slice_index_or};
ghost use Rattle.std.specs.List.{All};
ghost use Rattle.std.specs.Option.{ForSome};

use crate::entry::Entry;

/// The entries of a row as they are given to a gate or a register: each later by a delay, and named by the input or the
/// register and by its rank; or as they are.
#[derive(Clone, Copy)]
pub(crate) struct Offer<'a> {
    pub(crate) row: &'a [Entry],
    pub(crate) delay: u64,
    pub(crate) by: Option<u32>,
    ghost fits: { ForSome by (λ _. All (λ x. x.time + delay < 2 ^ 64) row.now) },
}

impl Offer<'_> {
    ghost use Rattle.worst_paths.specs.Offers.{offers, no_entry};

    // The entry of a rank.
    pub(crate) fn at(self, i: u32) -> Entry
        requires { i < length self.row.now }
        ensures { result ≡ slice_index_or (offers self.entry) i no_entry }
    {
        let entry = self.row[i as usize];
        match self.by {
            None => entry,
            Some(by) => Entry {
                time: entry.time + self.delay,
                by,
                rank: i,
            },
        }
    }
}
