ghost use Rattle.std.specs.Prelude.{◌≡◌, IfOk, OnOk, OnErr, All, map};
ghost use Rattle.pq_model.specs.Lawful.{IsLawfulAction, IsLawfulFlow, IsLawfulGroup, IsLawfulMessage};
ghost use Rattle.pq_model.specs.SwitchMachine.{applies, changes_entries, changes_groups, no_tables};

use crate::actions::Actions;
use crate::entries::Entries;
use crate::groups::Groups;
use crate::listing::Listing;
use crate::settled::Settled;
use pq_model::{Action, FlowCommand, FlowMod, GroupCommand, GroupMod, Message};
use std::alloc::{AllocError, Global};
use std::marker::Model;

/// The tables of a switch: its entries and its groups.
#[derive(Drop)]
pub struct Tables {
    pub(crate) entries: Entries,
    pub(crate) groups: Groups,
}

impl Model for Tables {
    ghost use Rattle.pq_model.specs.SwitchMachine.{Tables as TablesValue};
    ghost use Rattle.std.specs.Prelude.{List, refl};
    ghost use Rattle.std.specs.Coded.{code_by, coded×};
    ghost use Rattle.pq_model.specs.SwitchMachine.{Entry, Groups};
    ghost use Rattle.pq_switch.specs.contracts.entries.Entries as listed;
    ghost use Rattle.pq_switch.specs.contracts.groups.Groups as grouped;

    ghost Value = { TablesValue };

    ghost coded = { code_by (List Entry × Groups) (coded× listed.the_row.coded grouped.the_row.coded) (λ t. (t.entries, t.groups)) (λ p. record { entries = p.0; groups = p.1 }) (λ _. refl) };

    ghost view = { λ t. record { entries = t.entries; groups = t.groups } };
}

impl Tables {
    /// Tables with neither entries nor groups.
    pub fn empty(alloc: Global) -> Tables
        ensures { result ≡ no_tables }
    {
        Tables {
            entries: Entries::empty(alloc),
            groups: Groups::empty(alloc),
        }
    }

    /// Applies a message (OpenFlow 1.3.5, section 7.3.4). A refusal, because memory runs out, leaves the tables as they were.
    pub fn apply(&mut self, alloc: Global, message: &Message) -> Result<(), AllocError>
        requires lawful { IsLawfulMessage message.now }
        ensures ok { OnOk result (self.new ≡ applies self.old message.now) }
        ensures err { OnErr result (self.new ≡ self.old) }
    {
        match message {
            Message::Flow(flow) => self.apply_flow(alloc, flow),
            Message::Group(group) => self.apply_group(alloc, group),
            Message::Barrier { .. } => Ok(()),
        }
    }

    /// The same tables, laid out for look-ups.
    pub fn settle(self, alloc: Global) -> Result<Settled, AllocError>
        ensures { IfOk result (λ settled. settled ≡ self) }
    {
        let Tables { entries, groups } = self;
        let entries = Listing::of(alloc, entries)?;
        Ok(Settled { entries, groups })
    }

    fn apply_flow(&mut self, alloc: Global, flow: &FlowMod) -> Result<(), AllocError>
        requires lawful { IsLawfulFlow flow.now }
        ensures ok { OnOk result (self.new ≡ changes_entries flow.now.command flow.now self.old) }
        ensures err { OnErr result (self.new ≡ self.old) }
    {
        match flow.command {
            FlowCommand::Add => {
                if !self.groups.contains_named(&flow.actions) {
                    return Ok(());
                }
                self.entries.add(alloc, flow)
            }
            FlowCommand::DeleteAll => {
                self.entries.clear();
                Ok(())
            }
            FlowCommand::DeleteStrict => {
                self.entries.remove(flow);
                Ok(())
            }
        }
    }

    fn apply_group(&mut self, alloc: Global, group: &GroupMod) -> Result<(), AllocError>
        requires lawful { IsLawfulGroup group.now }
        ensures ok { OnOk result (self.new ≡ changes_groups group.now.command group.now self.old) }
        ensures err { OnErr result (self.new ≡ self.old) }
    {
        match group.command {
            GroupCommand::Add => {
                if self.groups.contains(group.group) {
                    return Ok(());
                }
                let buckets = copy_buckets(alloc, &group.buckets)?;
                self.groups.put(group.group, buckets)
            }
            GroupCommand::Modify => {
                if !self.groups.contains(group.group) {
                    return Ok(());
                }
                let buckets = copy_buckets(alloc, &group.buckets)?;
                self.groups.put(group.group, buckets)
            }
            GroupCommand::Delete => {
                self.entries.remove_naming(&self.groups, group.group);
                self.groups.remove(group.group);
                Ok(())
            }
        }
    }
}

// The same buckets in memory of their own.
fn copy_buckets(alloc: Global, buckets: &[Vec<Action>]) -> Result<Vec<Actions>, AllocError>
    requires { All (All IsLawfulAction) (map (λ b. b.items) buckets.now) }
    ensures { IfOk result (λ copied. copied.items ≡ map (λ b. b.items) buckets.now) }
{
    let mut copied = Vec::new(alloc);
    for bucket in buckets {
        copied.push(Actions::copy(alloc, bucket)?)?;
    }
    Ok(copied)
}
