//! Installs that are laid out for a meaning implement it.
ghost use Rattle.pq_headline.specs.Sent.{TablesImplement};

use crate::simulating::Held;

/// Law. The install of a meaning's departures and tags implements the meaning, where its switches send as their trees say:
/// whatever the tables held, in whatever lawful order each switch processes its messages, every schedule leaves the flights,
/// the deliveries and the buckets that the meaning leaves.
pub fn tables_implement<L: Held>()
    ensures { TablesImplement L.languages }
{}
