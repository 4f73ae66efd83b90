//! The install of a document.
ghost use Rattle.std.specs.Prelude.{◌≡◌, IfErr, IfOk, OnOk, map};
ghost use Rattle.pq_model.specs.Classes.{HasClasses};
ghost use Rattle.pq_compile.specs.Compiled.{
  AreTablesFault,
  AreTablesWithin,
  IsCompileFault,
  IsInstalled,
  IsWithinLimits,
  prepare_fault,
  rules_fault,
};
ghost use Rattle.pq_compile.specs.Documents.{document_tree};
ghost use Rattle.pq_compile.specs.Prepared.{AreNetworkTrees, ForwardsAt, HasFewValues, IsClassified, IsCompilable, languages_in};

use crate::document::Document;
use crate::preparing::{NetworkTrees, PrepareFault, network_trees, tree_sources};
use pq_classes::QueryClasses;
use pq_emit::assembled;
use pq_fields::Field;
use pq_install::Install;
use pq_io::Steps;
use pq_meaning::{
    classes_tag, compiled_implements, meaning_exists, meanings_are_laid_out, parts_depart,
};
use pq_query::Query;
use pq_rewrite::WriteSet;
use pq_rules::RulesFault;
use pq_store::{NodeId, Store};
use pq_term::Name;
use std::alloc::{AllocError, Global};
use std::sync::ledger::Ledger;
use thiserror::Error;

/// Why a document has no install. The faults are tried in this order.
#[derive(Debug, Drop, Error)]
pub enum CompileFault {
    /// This is the first field, in field order, with more stated values than its limit: this many.
    #[error("{field:?} has {count} stated values")]
    ValuesFull {
        field: Field,
        count: u64,
    },
    /// There are more than 1,024 instances: this many, or 4,294,967,295 where there are more.
    #[error("{count} instances")]
    InstancesFull {
        count: u32,
    },
    /// There are more than 4,094 classes of words: this many.
    #[error("{classes} classes")]
    TagWidth {
        classes: u64,
    },
    /// This is the first table, by switch and then by table, with more entries than its switch's limit: this many.
    #[error("table {table} of switch {switch} has {entries} entries")]
    TableFull {
        switch: u64,
        table: u8,
        entries: u64,
    },
    /// The first entry with more than 256 copies has this many.
    #[error("an entry of switch {switch} has {copies} copies")]
    GroupFull {
        switch: u64,
        copies: u64,
    },
    /// There is not enough memory.
    #[error("out of memory")]
    Memory,
}

impl CompileFault {
    /// A fault of what tables are made from, as one of compiling.
    pub fn of_prepare(fault: PrepareFault) -> CompileFault
        ensures { result ≡ prepare_fault fault }
    {
        match fault {
            PrepareFault::ValuesFull { field, count } => CompileFault::ValuesFull { field, count },
            PrepareFault::InstancesFull { count } => CompileFault::InstancesFull { count },
            PrepareFault::TagWidth { classes } => CompileFault::TagWidth { classes },
            PrepareFault::Memory => CompileFault::Memory,
        }
    }

    /// A fault of tables, as one of compiling.
    pub fn of_rules(fault: RulesFault) -> CompileFault
        ensures { result ≡ rules_fault fault }
    {
        match fault {
            RulesFault::TableFull {
                switch,
                table,
                entries,
            } => CompileFault::TableFull {
                switch,
                table,
                entries,
            },
            RulesFault::GroupFull { switch, copies } => CompileFault::GroupFull { switch, copies },
            RulesFault::Memory => CompileFault::Memory,
        }
    }
}

/// The names of queries.
fn names_of(alloc: Global, queries: &[(Name, Query)]) -> Result<Vec<Name>, AllocError>
    ensures { IfOk result (λ names. names.items ≡ map (λ q. q.0) queries.now) }
{
    let mut names = Vec::with_capacity(alloc, queries.len())?;
    for query in queries {
        names.push(query.0)?;
    }
    Ok(names)
}

/// The install of a document, from the diagram of its policy and from what its queries tell apart; or the first table or entry
/// that is too large.
///
/// The document is lawful, each query has fewer than 2^19 atoms, no field is above its limit of stated values, and there are at
/// most 4,094 classes.
pub fn installed(
    alloc: Global,
    document: &Document,
    forward: &Store<WriteSet>,
    policy: NodeId,
    told: &QueryClasses,
) -> Result<Install, RulesFault>
    requires compilable { IsCompilable (document_tree document.now) }
    requires values { HasFewValues (document_tree document.now) }
    requires policy { ForwardsAt (document_tree document.now) forward.now policy }
    requires told { IsClassified (document_tree document.now) told.now }
    ensures installed { IfOk result (IsInstalled (document_tree document.now)) }
    ensures cause { IfErr result (AreTablesFault (document_tree document.now)) }
    ensures complete { OnOk result (AreTablesWithin (document_tree document.now)) }
{
    let trees = match network_trees(alloc, document, forward, policy, told) {
        Ok(trees) => trees,
        Err(_) => return Err(RulesFault::Memory),
    };
    match entered(alloc, document, forward, policy, told, &trees) {
        Ok(install) => Ok(install),
        Err(fault) => Err(fault),
    }
}

/// The install of a document whose trees are made.
fn entered(
    alloc: Global,
    document: &Document,
    forward: &Store<WriteSet>,
    policy: NodeId,
    told: &QueryClasses,
    trees: &NetworkTrees,
) -> Result<Install, RulesFault>
    requires compilable { IsCompilable (document_tree document.now) }
    requires policy { ForwardsAt (document_tree document.now) forward.now policy }
    requires told { IsClassified (document_tree document.now) told.now }
    requires trees { AreNetworkTrees (document_tree document.now) forward.now policy told.now.letters told.now.classes trees.now }
    ensures installed { IfOk result (IsInstalled (document_tree document.now)) }
    ensures cause { IfErr result (AreTablesFault (document_tree document.now)) }
    ensures complete { OnOk result (AreTablesWithin (document_tree document.now)) }
{
    let names = match names_of(alloc, &document.queries) {
        Ok(names) => names,
        Err(_) => return Err(RulesFault::Memory),
    };
    parts_depart();
    classes_tag();
    meaning_exists();
    meanings_are_laid_out();
    compiled_implements();
    match assembled(
        &document.topology,
        &names,
        &told.classes,
        &told.instances,
        &trees.first,
        &trees.second,
        &trees.switches,
    ) {
        Ok(install) => Ok(install),
        Err(fault) => Err(fault),
    }
}

/// The install of a document, and the number of its classes of words; or the first limit that the document goes beyond.
///
/// The document is lawful, and each query has fewer than 2^19 atoms. Each union and sequence of diagrams, and each step of a
/// state, is counted.
pub fn compile_classes<L: Ledger>(
    alloc: Global,
    document: &Document,
    steps: &mut Steps<L>,
) -> Result<(Install, u64), CompileFault>
    requires { IsCompilable (document_tree document.now) }
    ensures installed { IfOk result (λ r. IsInstalled (document_tree document.now) r.0) }
    ensures classes { IfOk result (λ r. HasClasses (languages_in (document_tree document.now)) r.1) }
    ensures cause { IfErr result (IsCompileFault (document_tree document.now)) }
    ensures complete { OnOk result (IsWithinLimits (document_tree document.now)) }
{
    let sources = match tree_sources(alloc, document, steps) {
        Ok(sources) => sources,
        Err(fault) => return Err(CompileFault::of_prepare(fault)),
    };
    let classes = sources.told.classes.count();
    match installed(
        alloc,
        document,
        &sources.forward,
        sources.policy,
        &sources.told,
    ) {
        Ok(install) => Ok((install, classes)),
        Err(fault) => Err(CompileFault::of_rules(fault)),
    }
}

/// The install of a document, or the first limit that the document goes beyond. It is as `compile_classes`.
pub fn compile<L: Ledger>(
    alloc: Global,
    document: &Document,
    steps: &mut Steps<L>,
) -> Result<Install, CompileFault>
    requires { IsCompilable (document_tree document.now) }
    ensures installed { IfOk result (IsInstalled (document_tree document.now)) }
    ensures cause { IfErr result (IsCompileFault (document_tree document.now)) }
    ensures complete { OnOk result (IsWithinLimits (document_tree document.now)) }
{
    match compile_classes(alloc, document, steps) {
        Ok((install, _)) => Ok(install),
        Err(fault) => Err(fault),
    }
}
