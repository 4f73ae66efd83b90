use crate::action::Action;
use crate::matching::Match;
use std::marker::Model;

/// What a flow mod does to a switch's entries (OpenFlow 1.3.5, section 7.3.4.1).
#[derive(Clone, Copy, Debug, PartialEq, Eq)]
pub enum FlowCommand {
    /// Put an entry in the place of the one with the same table, match and priority.
    Add,
    /// Remove all entries.
    DeleteAll,
    /// Remove the entry with this table, match and priority.
    DeleteStrict,
}

/// A message that changes flow entries (OpenFlow 1.3.5, section 7.3.4.1).
#[derive(Debug, Drop)]
pub struct FlowMod {
    pub xid: u32,
    pub cookie: u64,
    pub table: u8,
    pub command: FlowCommand,
    pub priority: u16,
    pub matching: Match,
    /// The actions that an entry applies, in order.
    pub actions: Vec<Action>,
    /// The table that an entry goes to afterwards.
    pub goto: Option<u8>,
}

impl Model for FlowMod {
    ghost use Rattle.pq_model.specs.Mods.{FlowValue};

    ghost Value = { FlowValue };

    ghost view = { λ f. record { xid = f.xid; cookie = f.cookie; table = f.table; command = f.command; priority = f.priority; matching = f.matching; actions = f.actions.items; goto = f.goto } };
}
