ghost use Rattle.pq_rewrite.specs.Leaves.{same_arrival};

use pq_store::{Leaf, NodeId};

/// The packets that a tree is for, by their tag.
#[derive(Clone, Copy, Debug, PartialEq, Eq, PartialOrd, Ord, Hash)]
pub enum Key {
    /// Those without a tag.
    Plain,
    /// Those with this tag.
    Tag(u16),
}

/// The leaf of a tree of the first table: the tag of a packet that has arrived, and whether a copy goes to the collector.
#[derive(Clone, Copy, Debug, PartialEq, Eq, PartialOrd, Ord, Hash)]
pub struct Arrive {
    pub tag: u16,
    pub capture: bool,
}

impl Leaf for Arrive {
    ghost exact = { same_arrival };
}

/// The trees of a switch: those of the first table, by ascending keys, and those of the second, by ascending tags.
#[derive(Debug, Drop)]
pub struct SwitchTrees {
    pub arriving: Vec<(Key, NodeId)>,
    pub leaving: Vec<(u16, NodeId)>,
}
