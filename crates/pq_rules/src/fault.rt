//! Why the trees of a switch give no tables.
use std::alloc::AllocError;
use thiserror::Error;

/// Why the trees of a switch give no tables.
#[derive(Debug, Drop, Error)]
pub enum RulesFault {
    /// A table of the switch has more entries than its limit: this many, or 18,446,744,073,709,551,615 where there are more.
    #[error("table {table} of switch {switch} has {entries} entries")]
    TableFull {
        switch: u64,
        table: u8,
        entries: u64,
    },
    /// An entry of the switch has more than 256 copies: this many.
    #[error("an entry of switch {switch} has {copies} copies")]
    GroupFull {
        switch: u64,
        copies: u64,
    },
    /// There is not enough memory.
    #[error("out of memory")]
    Memory,
}

impl From<AllocError> for RulesFault {
    ghost use Rattle.std.specs.Prelude.{◌≡◌};
    ghost use Rattle.pq_rules.specs.declared.fault.RulesFault.TheVariants.{Memory};

    ghost from_gives = { λ _ fault. fault ≡ Memory };

    fn from(_fault: AllocError) -> RulesFault {
        RulesFault::Memory
    }
}
