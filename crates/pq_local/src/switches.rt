//! The messages of all switches of a changed document.
ghost use Rattle.std.specs.Prelude.{◌≡◌, ◌<◌, length, map, IfOk};
ghost use Rattle.pq_compile.specs.Documents.{document_tree};
ghost use Rattle.pq_compile.specs.Prepared.{ForwardsAt, HasFewValues, IsClassified, IsCompilable};
ghost use Rattle.pq_local.specs.Local.{AreServedAt, IsPlaceServed};

use crate::copies::messages_copied;
use crate::places::agree;
use crate::trees::tables_at;
use pq_classes::QueryClasses;
use pq_compile::Document;
use pq_model::Message;
use pq_rewrite::WriteSet;
use pq_rules::{RulesFault, rules};
use pq_store::{NodeId, Store};
use std::alloc::Global;

/// The messages of a switch, made of its trees; or why there are none.
fn made(
    alloc: Global,
    document: &Document,
    index: usize,
    forward: &Store<WriteSet>,
    policy: NodeId,
    told: &QueryClasses,
) -> Result<Vec<Message>, RulesFault>
    requires compilable { IsCompilable (document_tree document.now) }
    requires values { HasFewValues (document_tree document.now) }
    requires index { index < length document.now.topology.switches }
    requires policy { ForwardsAt (document_tree document.now) forward.now policy }
    requires told { IsClassified (document_tree document.now) told.now }
    ensures { IfOk result (λ ms. IsPlaceServed document.now.topology forward.now policy told.now.letters told.now.classes index ms.items) }
{
    let tables = match tables_at(alloc, document, index, forward, policy, told) {
        Ok(tables) => tables,
        Err(_) => return Err(RulesFault::Memory),
    };
    let switches = document.topology.switches();
    let switch = &switches[index];
    match rules(
        switch.datapath,
        switch.limit,
        &tables.first,
        &tables.second,
        &tables.trees,
    ) {
        Ok(messages) => Ok(messages),
        Err(fault) => Err(fault),
    }
}

/// The messages of a switch: the old ones, where both diagrams say the same of its packets, and else new ones.
fn served(
    alloc: Global,
    document: &Document,
    index: usize,
    forward: &Store<WriteSet>,
    before: NodeId,
    policy: NodeId,
    told: &QueryClasses,
    old: &[Message],
) -> Result<Vec<Message>, RulesFault>
    requires compilable { IsCompilable (document_tree document.now) }
    requires values { HasFewValues (document_tree document.now) }
    requires index { index < length document.now.topology.switches }
    requires before { before < length forward.now }
    requires policy { ForwardsAt (document_tree document.now) forward.now policy }
    requires told { IsClassified (document_tree document.now) told.now }
    requires old { IsPlaceServed document.now.topology forward.now before told.now.letters told.now.classes index old.now }
    ensures { IfOk result (λ ms. IsPlaceServed document.now.topology forward.now policy told.now.letters told.now.classes index ms.items) }
{
    let switches = document.topology.switches();
    let switch = &switches[index];
    if agree(forward, before, policy, switch.datapath) {
        return match messages_copied(alloc, old) {
            Ok(messages) => Ok(messages),
            Err(_) => Err(RulesFault::Memory),
        };
    }
    match made(alloc, document, index, forward, policy, told) {
        Ok(messages) => Ok(messages),
        Err(fault) => Err(fault),
    }
}

/// The messages of all switches, in the topology's order; or why the first switch without messages has none.
pub(crate) fn all_served(
    alloc: Global,
    document: &Document,
    forward: &Store<WriteSet>,
    before: NodeId,
    policy: NodeId,
    told: &QueryClasses,
    old: &[Vec<Message>],
) -> Result<Vec<Vec<Message>>, RulesFault>
    requires compilable { IsCompilable (document_tree document.now) }
    requires values { HasFewValues (document_tree document.now) }
    requires before { before < length forward.now }
    requires policy { ForwardsAt (document_tree document.now) forward.now policy }
    requires told { IsClassified (document_tree document.now) told.now }
    requires listed { length old.now ≡ length document.now.topology.switches }
    requires old { AreServedAt document.now.topology forward.now before told.now.letters told.now.classes (map (λ ms. ms.items) old.now) }
    ensures { IfOk result (λ all. AreServedAt document.now.topology forward.now policy told.now.letters told.now.classes (map (λ ms. ms.items) all.items)) }
{
    let switches = document.topology.switches();
    let mut all = Vec::new(alloc);
    for index in 0..switches.len() {
        let messages = match served(
            alloc,
            document,
            index,
            forward,
            before,
            policy,
            told,
            &old[index],
        ) {
            Ok(messages) => messages,
            Err(fault) => return Err(fault),
        };
        match all.push(messages) {
            Ok(()) => {}
            Err(_) => return Err(RulesFault::Memory),
        }
    }
    Ok(all)
}
