//! Tables that are laid out for a meaning move and capture packets as it says.
ghost use Rattle.std.specs.Prelude.{ℕ};
ghost use Rattle.pq_model.specs.Word.{Word};
ghost use Rattle.pq_headline.specs.LaidOut.{LaidOutTablesAgree, LaidOutTablesSimulate};

/// For each instance, by its number, the words that it holds.
pub trait Held {
    ghost languages: { ℕ → Word → Type 0 };
}

/// Law. Where switches send as the layout says of a meaning's departures and tags, one hop of each packet in flight adds what
/// the meaning adds to the flight, the deliveries and the buckets.
pub fn laid_out_tables_simulate<L: Held>()
    ensures { LaidOutTablesSimulate L.languages }
{}

/// Law. So every schedule leaves the flights, the deliveries and the buckets that the meaning leaves.
pub fn laid_out_tables_agree<L: Held>()
    ensures { LaidOutTablesAgree L.languages }
{}
