ghost use Rattle.std.specs.Prelude.{◌≡◌, ◌<◌};
ghost use Rattle.std.specs.Ordering.{is_eq};
ghost use Rattle.pq_switch.specs.Places.{block_cmp, first_of, place_at, place_of};

use crate::pattern::Pattern;
use pq_model::Match;
use std::cmp::Ordering;

/// The table of an entry, and the arriving port and the VLAN word that its match states.
#[derive(Clone, Copy, PartialEq, Eq, PartialOrd, Ord)]
pub(crate) struct Block {
    pub(crate) table: u8,
    pub(crate) in_port: Option<u64>,
    pub(crate) vlan: Option<u64>,
}

/// The place of an entry: no two entries have the same.
///
/// Places are ordered so that the entries of a block whose matches have the same shape are together, and of these the
/// entries of one match by falling priority.
#[derive(Clone, Copy, PartialEq, Eq, PartialOrd, Ord)]
pub(crate) struct Place {
    pub(crate) block: Block,
    pub(crate) shape: Pattern,
    /// Not so for an entry: a place after all entries of its shape.
    pub(crate) behind: bool,
    pub(crate) pattern: Pattern,
    /// 0x10000 less the priority.
    pub(crate) down: u32,
}

impl Place {
    /// The place of an entry with this table, match and priority.
    pub(crate) fn of(table: u8, matching: &Match, priority: u16) -> Place
        ensures value { result ≡ place_of table matching.now priority }
        ensures small { priority < 0x10000 }
    {
        let pattern = Pattern::of(matching);
        Place::at(table, pattern, 0x1_0000 - u32::from(priority))
    }

    /// The place of a pattern in a table, so far down.
    pub(crate) fn at(table: u8, pattern: Pattern, down: u32) -> Place
        ensures { result ≡ place_at table pattern down }
    {
        Place {
            block: Block {
                table,
                in_port: pattern.in_port,
                vlan: pattern.vlan,
            },
            shape: pattern.shape(),
            behind: false,
            pattern,
            down,
        }
    }

    /// The place before all entries of a block.
    pub(crate) fn first(block: Block) -> Place
        ensures { result ≡ first_of block }
    {
        Place {
            block,
            shape: Pattern::NONE,
            behind: false,
            pattern: Pattern::NONE,
            down: 0,
        }
    }

    /// Whether the place is in the block.
    pub(crate) fn is_in(&self, block: Block) -> bool
        ensures { result ≡ is_eq (block_cmp self.now.block block) }
    {
        matches!(self.block.cmp(&block), Ordering::Equal)
    }
}
