//! The trees of one switch of a document.
ghost use Rattle.std.specs.Prelude.{◌<◌, length, IfOk};
ghost use Rattle.pq_compile.specs.Documents.{document_tree};
ghost use Rattle.pq_compile.specs.Prepared.{ForwardsAt, HasFewValues, IsClassified, IsCompilable};
ghost use Rattle.pq_local.specs.Local.{AreTablesAt};

use pq_classes::QueryClasses;
use pq_compile::Document;
use pq_join::{switch_trees, tests_stand_below_prerequisites, trees_are_sound, trees_test_ports};
use pq_meaning::{parts_depart, parts_ignore_lacking};
use pq_rewrite::{Arrive, Copies, SwitchTrees, WriteSet};
use pq_store::{NodeId, Store};
use std::alloc::{AllocError, Global};

/// Stores of the trees of a switch's two tables, and the trees' places in them.
#[derive(Drop)]
pub(crate) struct TablesAt {
    pub(crate) first: Store<Option<Arrive>>,
    pub(crate) second: Store<Copies>,
    pub(crate) trees: SwitchTrees,
}

/// The trees of the switch at a place of the topology.
pub(crate) fn tables_at(
    alloc: Global,
    document: &Document,
    index: usize,
    forward: &Store<WriteSet>,
    policy: NodeId,
    told: &QueryClasses,
) -> Result<TablesAt, AllocError>
    requires compilable { IsCompilable (document_tree document.now) }
    requires values { HasFewValues (document_tree document.now) }
    requires index { index < length document.now.topology.switches }
    requires policy { ForwardsAt (document_tree document.now) forward.now policy }
    requires told { IsClassified (document_tree document.now) told.now }
    ensures { IfOk result (AreTablesAt document.now.topology forward.now policy told.now.letters told.now.classes index) }
{
    // What is lawful of topologies, letters, classes and diagrams, and the laws of trees.
    told.letters.count();
    told.classes.is_lawful();
    forward.has_diagrams();
    parts_depart();
    parts_ignore_lacking();
    trees_are_sound();
    tests_stand_below_prerequisites();
    trees_test_ports();
    let switches = document.topology.switches();
    let switch = &switches[index];
    let mut first = Store::new(alloc);
    let mut second = Store::new(alloc);
    let trees = switch_trees(
        &document.topology,
        switch.datapath,
        forward,
        policy,
        &told.letters,
        &told.classes,
        &mut first,
        &mut second,
    )?;
    Ok(TablesAt {
        first,
        second,
        trees,
    })
}
