use crate::action::Action;
use std::marker::Model;

/// What a group mod does to a switch's groups (OpenFlow 1.3.5, section 7.3.4.2).
#[derive(Clone, Copy, Debug, PartialEq, Eq)]
pub enum GroupCommand {
    Add,
    /// Replace the buckets.
    Modify,
    /// Remove the group, or with the number 0xfffffffc all groups, and each entry that names a removed group.
    Delete,
}

/// A message that changes a group of type ALL (OpenFlow 1.3.5, section 7.3.4.2).
#[derive(Debug, Drop)]
pub struct GroupMod {
    pub xid: u32,
    pub command: GroupCommand,
    pub group: u32,
    /// The actions of each bucket; each bucket gets a copy of the packet of its own.
    pub buckets: Vec<Vec<Action>>,
}

impl Model for GroupMod {
    ghost use Rattle.std.specs.Prelude.{map};
    ghost use Rattle.pq_model.specs.Mods.{GroupValue};

    ghost Value = { GroupValue };

    ghost view = { λ g. record { xid = g.xid; command = g.command; group = g.group; buckets = map (λ b. b.items) g.buckets.items } };
}
