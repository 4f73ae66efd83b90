//! Changes of one query of a document.
ghost use Rattle.std.specs.Prelude.{◌≡◌, IfErr, IfOk, OnErr, OnOk};
ghost use Rattle.pq_query.specs.Query.{query_tree};
ghost use Rattle.pq_sum.specs.Places.{IsSummed};
ghost use Rattle.pq_compile.specs.Compiled.{IsCompileFault};
ghost use Rattle.pq_compile.specs.Documents.{document_tree};
ghost use Rattle.pq_compile.specs.Prepared.{parts_in};
ghost use Rattle.pq_edit.specs.Edits.{IsLawfulEdit, QueryPut, QueryRemoved, edited};
ghost use Rattle.pq_engine.specs.Changes.{IsQueriesChange, IsRenewable};
ghost use Rattle.pq_engine.specs.Engine.{IsEngine, engine_of};

use crate::kept::Kept;
use crate::named::{insert_back, place_of, put_at, put_back, remove_at};
use crate::renewal::{Renewed, renew};
use pq_classes::QueryClasses;
use pq_compile::{CompileFault, Document, classified, few_values};
use pq_edit::edited_documents_are_lawful;
use pq_io::Steps;
use pq_query::Query;
use pq_term::Name;
use std::alloc::Global;
use std::sync::ledger::Ledger;

/// What a change of the queries makes.
#[derive(Drop)]
pub(crate) struct QueriesChange {
    /// What the queries tell apart.
    pub(crate) told: QueryClasses,
    pub(crate) renewed: Renewed,
}

/// The change to a document whose queries changed.
fn queries_changed<L: Ledger>(
    alloc: Global,
    document: &Document,
    kept: &Kept,
    derivations: &mut Steps<L>,
) -> Result<QueriesChange, CompileFault>
    requires renewable { IsRenewable (document_tree document.now) kept.now }
    requires summed { IsSummed document.now.topology kept.now.forward (parts_in (document_tree document.now)) kept.now.sum }
    ensures change { IfOk result (IsQueriesChange (document_tree document.now) kept.now.install) }
    ensures cause { IfErr result (IsCompileFault (document_tree document.now)) }
{
    match few_values(alloc, document) {
        Ok(()) => {}
        Err(fault) => return Err(CompileFault::of_prepare(fault)),
    }
    let told = match classified(alloc, document, derivations) {
        Ok(told) => told,
        Err(fault) => return Err(CompileFault::of_prepare(fault)),
    };
    match renew(
        alloc,
        document,
        &kept.forward,
        kept.sum.total(),
        &told,
        &kept.install,
    ) {
        Ok(renewed) => Ok(QueriesChange { told, renewed }),
        Err(fault) => Err(fault),
    }
}

/// Puts a query into a document, and makes what changes with it. After a refusal the document is as it was.
pub(crate) fn put_query<L: Ledger>(
    alloc: Global,
    document: &mut Document,
    kept: &Kept,
    name: Name,
    query: Query,
    derivations: &mut Steps<L>,
) -> Result<QueriesChange, CompileFault>
    requires kept { IsEngine (engine_of (document_tree document.old) kept.now) }
    requires lawful { IsLawfulEdit (document_tree document.old) (QueryPut (name, query_tree query)) }
    ensures document { OnOk result (document_tree document.new ≡ edited (document_tree document.old) (QueryPut (name, query_tree query))) }
    ensures change { IfOk result (IsQueriesChange (edited (document_tree document.old) (QueryPut (name, query_tree query))) kept.now.install) }
    ensures kept { OnErr result (document_tree document.new ≡ document_tree document.old) }
    ensures cause { IfErr result (IsCompileFault (edited (document_tree document.old) (QueryPut (name, query_tree query)))) }
{
    edited_documents_are_lawful();
    let place = place_of(&document.queries, &name);
    let old = match put_at(&mut document.queries, place, (name, query)) {
        Ok(old) => old,
        Err(_) => return Err(CompileFault::Memory),
    };
    match queries_changed(alloc, document, kept, derivations) {
        Ok(change) => Ok(change),
        Err(fault) => {
            put_back(&mut document.queries, place, old);
            Err(fault)
        }
    }
}

/// Takes a query out of a document, and makes what changes with it. After a refusal the document is as it was.
pub(crate) fn remove_query<L: Ledger>(
    alloc: Global,
    document: &mut Document,
    kept: &Kept,
    name: Name,
    derivations: &mut Steps<L>,
) -> Result<QueriesChange, CompileFault>
    requires kept { IsEngine (engine_of (document_tree document.old) kept.now) }
    requires lawful { IsLawfulEdit (document_tree document.old) (QueryRemoved name) }
    ensures document { OnOk result (document_tree document.new ≡ edited (document_tree document.old) (QueryRemoved name)) }
    ensures change { IfOk result (IsQueriesChange (edited (document_tree document.old) (QueryRemoved name)) kept.now.install) }
    ensures kept { OnErr result (document_tree document.new ≡ document_tree document.old) }
    ensures cause { IfErr result (IsCompileFault (edited (document_tree document.old) (QueryRemoved name))) }
{
    edited_documents_are_lawful();
    let place = place_of(&document.queries, &name);
    let old = remove_at(&mut document.queries, place);
    match queries_changed(alloc, document, kept, derivations) {
        Ok(change) => Ok(change),
        Err(fault) => {
            insert_back(&mut document.queries, place, old);
            Err(fault)
        }
    }
}
