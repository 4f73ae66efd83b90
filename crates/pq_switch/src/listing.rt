ghost use Rattle.std.specs.Prelude.{◌≡◌, IfOk};
ghost use Rattle.std.specs.Option.{option_copied};
ghost use Rattle.pq_model.specs.SwitchMachine.{taken};

use crate::entries::Entries;
use crate::entry::Entry;
use crate::shelves::Shelved;
use pq_model::Tagged;
use std::alloc::{AllocError, Global};

/// Entries that no longer change.
#[derive(Drop)]
pub(crate) enum Listing {
    /// Few of each shape: they are compared one by one.
    Shelved(Shelved),
    /// Many of one shape: they are found by their places.
    Placed(Entries),
}

impl Listing {
    ghost use Rattle.pq_switch.specs.Listed.{listed};

    /// The same entries.
    pub(crate) fn of(alloc: Global, entries: Entries) -> Result<Listing, AllocError>
        ensures { IfOk result (λ listing. listed listing ≡ entries) }
    {
        if entries.has_large_shape() {
            return Ok(Listing::Placed(entries));
        }
        let shelved = entries.shelved(alloc)?;
        Ok(Listing::Shelved(shelved))
    }

    /// The covering entry of highest priority in a table; of several, the one added first.
    pub(crate) fn taken(&self, table: u8, x: &Tagged) -> Option<&Entry>
        ensures { option_copied result ≡ taken (listed self.now) table x.now }
    {
        match self {
            Listing::Shelved(entries) => entries.taken(table, x),
            Listing::Placed(entries) => entries.taken(table, x),
        }
    }
}
