//! The install of a document after a change of its parts.
ghost use Rattle.std.specs.Prelude.{◌≡◌, ◌<◌, map, IfErr, IfOk, OnOk};
ghost use Rattle.pq_compile.specs.Compiled.{AreTablesFault, AreTablesWithin, IsInstalled};
ghost use Rattle.pq_compile.specs.Documents.{document_tree};
ghost use Rattle.pq_compile.specs.Prepared.{ForwardsAt, HasFewValues, IsClassified, IsCompilable};
ghost use Rattle.pq_local.specs.Local.{AreServedAt, IsBefore};

use crate::copies::report_copied;
use crate::switches::all_served;
use pq_classes::QueryClasses;
use pq_compile::{Document, installed};
use pq_install::Install;
use pq_meaning::{
    classes_tag, compiled_implements, documents_have_one_set_of_trees, one_install, parts_depart,
};
use pq_model::Message;
use pq_rewrite::WriteSet;
use pq_rules::RulesFault;
use pq_store::{NodeId, Store};
use std::alloc::{AllocError, Global};

/// An equal install, but with these messages.
fn with_messages(
    alloc: Global,
    old: &Install,
    messages: Vec<Vec<Message>>,
) -> Result<Install, AllocError>
    ensures { IfOk result (λ i. i
        ≡ record {
          topology = old.now.topology;
          queries = old.now.queries;
          report = old.now.report;
          messages = map
              (λ ms. ms.items) messages.items;
        }) }
{
    let topology = old.topology.copy(alloc)?;
    let names = Vec::from_slice(alloc, &old.names)?;
    let report = report_copied(alloc, &old.report)?;
    Ok(Install {
        topology,
        names,
        report,
        messages,
    })
}

/// The install of a changed document from these messages of its switches.
fn renewed(
    alloc: Global,
    document: &Document,
    forward: &Store<WriteSet>,
    before: NodeId,
    policy: NodeId,
    told: &QueryClasses,
    old: &Install,
    messages: Vec<Vec<Message>>,
) -> Result<Install, AllocError>
    requires compilable { IsCompilable (document_tree document.now) }
    requires policy { ForwardsAt (document_tree document.now) forward.now policy }
    requires told { IsClassified (document_tree document.now) told.now }
    requires old { IsBefore (document_tree document.now) forward.now before old.now }
    requires served { AreServedAt document.now.topology forward.now policy told.now.letters told.now.classes (map (λ ms. ms.items) messages.items) }
    ensures installed { IfOk result (IsInstalled (document_tree document.now)) }
    ensures complete { OnOk result (AreTablesWithin (document_tree document.now)) }
{
    parts_depart();
    classes_tag();
    documents_have_one_set_of_trees();
    one_install();
    compiled_implements();
    let install = with_messages(alloc, old, messages)?;
    Ok(install)
}

/// The install of a document from that of before its parts were changed; or the first table or entry that is too large.
///
/// The diagrams of the old parts and of the new ones are in one store, `before` and `policy` are their places. Where both say the
/// same of all packets at a switch, the switch's messages are copied, and else they are made of its trees. Where a table or an
/// entry is too large, the whole install is made, so that the first one is told. Otherwise it is as `installed`.
pub fn installed_after(
    alloc: Global,
    document: &Document,
    forward: &Store<WriteSet>,
    before: NodeId,
    policy: NodeId,
    told: &QueryClasses,
    old: &Install,
) -> Result<Install, RulesFault>
    requires compilable { IsCompilable (document_tree document.now) }
    requires values { HasFewValues (document_tree document.now) }
    requires policy { ForwardsAt (document_tree document.now) forward.now policy }
    requires told { IsClassified (document_tree document.now) told.now }
    requires old { IsBefore (document_tree document.now) forward.now before old.now }
    ensures installed { IfOk result (IsInstalled (document_tree document.now)) }
    ensures cause { IfErr result (AreTablesFault (document_tree document.now)) }
    ensures complete { OnOk result (AreTablesWithin (document_tree document.now)) }
{
    parts_depart();
    classes_tag();
    documents_have_one_set_of_trees();
    let messages = match all_served(
        alloc,
        document,
        forward,
        before,
        policy,
        told,
        &old.messages,
    ) {
        Ok(messages) => messages,
        Err(RulesFault::Memory) => return Err(RulesFault::Memory),
        Err(_) => return installed(alloc, document, forward, policy, told),
    };
    match renewed(
        alloc, document, forward, before, policy, told, old, messages,
    ) {
        Ok(install) => Ok(install),
        Err(_) => Err(RulesFault::Memory),
    }
}
