//! Laws of the trees of switches: calls that do nothing, for what their contracts say.
ghost use Rattle.pq_emit.specs.Switches.{HaveOneTree};

/// Law: a switch has one list of trees per table, for the same topology, tags and departures.
pub fn one_trees()
    ensures { HaveOneTree }
{}
