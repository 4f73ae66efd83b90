ghost use Rattle.std.specs.Prelude.{◌≡◌, All, IfOk};
ghost use Rattle.pq_model.specs.Lawful.{IsLawfulAction};
ghost use Rattle.pq_model.specs.SwitchMachine.{entry_of};

use crate::actions::Actions;
use pq_model::{FlowMod, Match};
use std::alloc::{AllocError, Global};
use std::marker::Model;

/// A flow entry (OpenFlow 1.3.5, section 5.2).
#[derive(Drop)]
pub(crate) struct Entry {
    pub(crate) table: u8,
    pub(crate) priority: u16,
    pub(crate) matching: Match,
    pub(crate) cookie: u64,
    pub(crate) actions: Actions,
    pub(crate) goto: Option<u8>,
}

impl Model for Entry {
    ghost use Rattle.pq_model.specs.SwitchMachine.{Entry as EntryValue};

    ghost Value = { EntryValue };

    ghost view = { λ e. record { table = e.table; priority = e.priority; matching = e.matching; cookie = e.cookie; actions = e.actions; goto = e.goto } };
}

impl Entry {
    /// The entry of an Add.
    pub(crate) fn of(alloc: Global, flow: &FlowMod) -> Result<Entry, AllocError>
        requires { All IsLawfulAction flow.now.actions }
        ensures { IfOk result (λ e. e ≡ entry_of flow.now) }
    {
        let actions = Actions::copy(alloc, &flow.actions)?;
        Ok(Entry {
            table: flow.table,
            priority: flow.priority,
            matching: flow.matching,
            cookie: flow.cookie,
            actions,
            goto: flow.goto,
        })
    }
}

/// An entry, and the number by which it was added.
#[derive(Drop)]
pub(crate) struct Slot {
    pub(crate) sequence: u64,
    pub(crate) entry: Entry,
}
