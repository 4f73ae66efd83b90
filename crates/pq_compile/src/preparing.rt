//! What the tables of a document's network are made from.
ghost use Rattle.std.specs.Prelude.{IfErr, IfOk, OnOk};
ghost use Rattle.pq_compile.specs.Documents.{document_tree};
ghost use Rattle.pq_compile.specs.Prepared.{
  AreNetworkTrees,
  AreTreeSources,
  ForwardsAt,
  HasFewValues,
  IsClassified,
  IsCompilable,
  IsPrepareFault,
  IsPrepared,
  IsTold,
  IsWithin,
  queries_in,
};
ghost use Rattle.pq_query.specs.Instances.{IsCause, label_sum};

use crate::document::Document;
use crate::limits::values_full;
use pq_classes::{QueryClasses, query_classes};
use pq_emit::all_trees;
use pq_fields::Field;
use pq_io::Steps;
use pq_join::{tests_stand_below_prerequisites, trees_are_sound, trees_test_ports};
use pq_letters::Letters;
use pq_meaning::{parts_depart, parts_forward, parts_ignore_lacking};
use pq_min::Classes;
use pq_query::{Instance, InstancesFault};
use pq_rewrite::{Arrive, Copies, SwitchTrees, WriteSet};
use pq_store::{NodeId, Store};
use std::alloc::{AllocError, Global};
use std::sync::ledger::Ledger;
use thiserror::Error;

/// The most classes of words: each has a tag.
const MOST_CLASSES: u64 = 4094;

/// Diagrams, letters and classes of a document, and the trees of its network.
#[derive(Drop)]
pub struct Prepared {
    /// The store of the policy's diagram, and its place.
    pub forward: Store<WriteSet>,
    pub policy: NodeId,
    /// The letters of packets that the queries tell apart, and the classes of words over them.
    pub letters: Letters,
    pub classes: Classes,
    /// The instances of the queries.
    pub instances: Vec<Instance>,
    /// The stores of the trees of the first and of the second table.
    pub first: Store<Option<Arrive>>,
    pub second: Store<Copies>,
    /// The trees of each switch, in the topology's order.
    pub trees: Vec<SwitchTrees>,
}

/// What the trees of a document's network are made from: the diagram of its policy, in a store, and what its queries tell apart.
#[derive(Drop)]
pub(crate) struct TreeSources {
    pub(crate) forward: Store<WriteSet>,
    pub(crate) policy: NodeId,
    pub(crate) told: QueryClasses,
}

/// The trees of a network: of each switch, in the topology's order, with the stores of those of the first and of the second
/// table.
#[derive(Drop)]
pub(crate) struct NetworkTrees {
    pub(crate) first: Store<Option<Arrive>>,
    pub(crate) second: Store<Copies>,
    pub(crate) switches: Vec<SwitchTrees>,
}

/// Why a document can't be prepared.
#[derive(Debug, Drop, Error)]
pub enum PrepareFault {
    /// This is the first field, in field order, with more stated values than its limit: this many.
    #[error("{field:?} has {count} stated values")]
    ValuesFull { field: Field, count: u64 },
    /// There are more than 1,024 instances: this many, or 4,294,967,295 where there are more.
    #[error("{count} instances")]
    InstancesFull { count: u32 },
    /// There are more than 4,094 classes of words: this many.
    #[error("{classes} classes")]
    TagWidth { classes: u64 },
    /// There is not enough memory.
    #[error("out of memory")]
    Memory,
}

impl From<AllocError> for PrepareFault {
    fn from(_fault: AllocError) -> PrepareFault {
        PrepareFault::Memory
    }
}

/// The first field, in field order, for which a document states more numbers than its limit allows, is a fault.
pub fn few_values(alloc: Global, document: &Document) -> Result<(), PrepareFault>
    ensures few { OnOk result (HasFewValues (document_tree document.now)) }
    ensures cause { IfErr result (IsPrepareFault (document_tree document.now)) }
{
    match values_full(alloc, document) {
        Ok(None) => Ok(()),
        Ok(Some((field, count))) => Err(PrepareFault::ValuesFull { field, count }),
        Err(_) => Err(PrepareFault::Memory),
    }
}

/// What the queries of a document tell apart.
fn told<L: Ledger>(
    alloc: Global,
    document: &Document,
    steps: &mut Steps<L>,
) -> Result<QueryClasses, InstancesFault>
    requires compilable { IsCompilable (document_tree document.now) }
    requires values { HasFewValues (document_tree document.now) }
    ensures told { IfOk result (IsTold (document_tree document.now)) }
    ensures cause { IfErr result (λ fault. IsCause fault (label_sum document.now.topology (queries_in (document_tree document.now)))) }
{
    let mut tests = Store::new(alloc);
    match query_classes(
        alloc,
        &document.queries,
        &document.topology,
        &mut tests,
        steps,
    ) {
        Ok(told) => Ok(told),
        Err(fault) => Err(fault),
    }
}

/// The instances of a document's queries, the letters that they tell apart and the classes of words, of which there are at most
/// 4,094; or the first of these limits that the document goes beyond. Each step of a state is counted.
///
/// The document is lawful, each query has fewer than 2^19 atoms, and no field is above its limit of stated values.
pub fn classified<L: Ledger>(
    alloc: Global,
    document: &Document,
    steps: &mut Steps<L>,
) -> Result<QueryClasses, PrepareFault>
    requires compilable { IsCompilable (document_tree document.now) }
    requires values { HasFewValues (document_tree document.now) }
    ensures classified { IfOk result (IsClassified (document_tree document.now)) }
    ensures cause { IfErr result (IsPrepareFault (document_tree document.now)) }
{
    match told(alloc, document, steps) {
        Ok(told) => {
            let classes = told.classes.count();
            if classes > MOST_CLASSES {
                return Err(PrepareFault::TagWidth { classes });
            }
            Ok(told)
        }
        Err(InstancesFault::InstancesFull { count }) => Err(PrepareFault::InstancesFull { count }),
        Err(InstancesFault::Memory) => Err(PrepareFault::Memory),
    }
}

/// The diagram of what the parts of a document forward.
fn forwarded<L: Ledger>(
    document: &Document,
    store: &mut Store<WriteSet>,
    steps: &mut Steps<L>,
) -> Result<NodeId, AllocError>
    requires compilable { IsCompilable (document_tree document.now) }
    requires values { HasFewValues (document_tree document.now) }
    ensures policy { IfOk result (ForwardsAt (document_tree document.now) store.new) }
{
    let mut tests = Store::new(store.allocator());
    let id = parts_forward(
        &mut tests,
        store,
        &document.parts,
        &document.topology,
        steps,
    )?;
    Ok(id)
}

/// The trees of a document's network, from the diagram of its policy and from what its queries tell apart.
pub(crate) fn network_trees(
    alloc: Global,
    document: &Document,
    forward: &Store<WriteSet>,
    policy: NodeId,
    told: &QueryClasses,
) -> Result<NetworkTrees, AllocError>
    requires compilable { IsCompilable (document_tree document.now) }
    requires values { HasFewValues (document_tree document.now) }
    requires policy { ForwardsAt (document_tree document.now) forward.now policy }
    requires told { IsClassified (document_tree document.now) told.now }
    ensures { IfOk result (AreNetworkTrees (document_tree document.now) forward.now policy told.now.letters told.now.classes) }
{
    // What is lawful of topologies, letters, classes and diagrams, and the laws of trees.
    document.topology.switches();
    told.letters.count();
    told.classes.is_lawful();
    forward.has_diagrams();
    parts_depart();
    parts_ignore_lacking();
    trees_are_sound();
    tests_stand_below_prerequisites();
    trees_test_ports();
    let mut first = Store::new(alloc);
    let mut second = Store::new(alloc);
    let switches = all_trees(
        &document.topology,
        forward,
        policy,
        &told.letters,
        &told.classes,
        &mut first,
        &mut second,
    )?;
    Ok(NetworkTrees {
        first,
        second,
        switches,
    })
}

/// What the trees of a document's network are made from, or the first limit that the document goes beyond.
pub(crate) fn tree_sources<L: Ledger>(
    alloc: Global,
    document: &Document,
    steps: &mut Steps<L>,
) -> Result<TreeSources, PrepareFault>
    requires { IsCompilable (document_tree document.now) }
    ensures sources { IfOk result (AreTreeSources (document_tree document.now)) }
    ensures within { OnOk result (IsWithin (document_tree document.now)) }
    ensures cause { IfErr result (IsPrepareFault (document_tree document.now)) }
{
    match few_values(alloc, document) {
        Ok(()) => {}
        Err(fault) => return Err(fault),
    }
    let told = match classified(alloc, document, steps) {
        Ok(told) => told,
        Err(fault) => return Err(fault),
    };
    let mut forward = Store::new(alloc);
    match forwarded(document, &mut forward, steps) {
        Ok(policy) => Ok(TreeSources {
            forward,
            policy,
            told,
        }),
        Err(_) => Err(PrepareFault::Memory),
    }
}

/// The sources with the trees that are made from them.
fn joined(alloc: Global, document: &Document, sources: TreeSources) -> Result<Prepared, AllocError>
    requires compilable { IsCompilable (document_tree document.now) }
    requires sources { AreTreeSources (document_tree document.now) sources }
    ensures { IfOk result (IsPrepared (document_tree document.now)) }
{
    let TreeSources {
        forward,
        policy,
        told,
    } = sources;
    let NetworkTrees {
        first,
        second,
        switches,
    } = network_trees(alloc, document, &forward, policy, &told)?;
    let QueryClasses {
        instances,
        letters,
        classes,
    } = told;
    Ok(Prepared {
        forward,
        policy,
        letters,
        classes,
        instances,
        first,
        second,
        trees: switches,
    })
}

/// The diagrams, letters and classes of a document and the trees of its network, or the first limit that it goes beyond.
///
/// The document is lawful, and each query has fewer than 2^19 atoms. Each union and sequence of diagrams, and each step of a
/// state, is counted.
pub fn prepare<L: Ledger>(
    alloc: Global,
    document: &Document,
    steps: &mut Steps<L>,
) -> Result<Prepared, PrepareFault>
    requires { IsCompilable (document_tree document.now) }
    ensures prepared { IfOk result (IsPrepared (document_tree document.now)) }
    ensures cause { IfErr result (IsPrepareFault (document_tree document.now)) }
    ensures complete { OnOk result (IsWithin (document_tree document.now)) }
{
    let sources = match tree_sources(alloc, document, steps) {
        Ok(sources) => sources,
        Err(fault) => return Err(fault),
    };
    match joined(alloc, document, sources) {
        Ok(prepared) => Ok(prepared),
        Err(_) => Err(PrepareFault::Memory),
    }
}
