//! The install of a changed document.
ghost use Rattle.std.specs.Prelude.{◌≡◌, IfErr, IfOk};
ghost use Rattle.pq_model.specs.Install.{IsLawfulInstall};
ghost use Rattle.pq_compile.specs.Compiled.{IsCompileFault};
ghost use Rattle.pq_compile.specs.Documents.{document_tree};
ghost use Rattle.pq_compile.specs.Prepared.{ForwardsAt, HasFewValues, IsClassified, IsCompilable};
ghost use Rattle.pq_local.specs.Local.{IsBefore};
ghost use Rattle.pq_engine.specs.Changes.{IsRenewed};

use pq_classes::QueryClasses;
use pq_compile::{CompileFault, Document, installed};
use pq_delta::delta;
use pq_install::Install;
use pq_local::installed_after;
use pq_model::Message;
use pq_rewrite::WriteSet;
use pq_store::{NodeId, Store};
use std::alloc::Global;

/// An install, and the messages that turn the tables of the one before it into its tables.
#[derive(Drop)]
pub(crate) struct Renewed {
    pub(crate) install: Install,
    pub(crate) messages: Vec<(u64, Vec<Message>)>,
}

/// The install of a document after a change, and the messages that turn the tables of the old install into its tables.
pub(crate) fn renew(
    alloc: Global,
    document: &Document,
    forward: &Store<WriteSet>,
    policy: NodeId,
    told: &QueryClasses,
    old: &Install,
) -> Result<Renewed, CompileFault>
    requires compilable { IsCompilable (document_tree document.now) }
    requires values { HasFewValues (document_tree document.now) }
    requires policy { ForwardsAt (document_tree document.now) forward.now policy }
    requires told { IsClassified (document_tree document.now) told.now }
    requires old { IsLawfulInstall old.now }
    requires topology { old.now.topology ≡ document.now.topology }
    ensures renewed { IfOk result (IsRenewed (document_tree document.now) old.now) }
    ensures cause { IfErr result (IsCompileFault (document_tree document.now)) }
{
    let install = match installed(alloc, document, forward, policy, told) {
        Ok(install) => install,
        Err(fault) => return Err(CompileFault::of_rules(fault)),
    };
    match delta(alloc, old, &install) {
        Ok(messages) => Ok(Renewed { install, messages }),
        Err(_) => Err(CompileFault::Memory),
    }
}

/// The install of a document after a change of its parts, and the messages that turn the tables of the old install into its tables.
/// The diagrams of the old parts and of the new ones are in one store: what is the same in both is taken over from the old install.
pub(crate) fn renew_parts(
    alloc: Global,
    document: &Document,
    forward: &Store<WriteSet>,
    before: NodeId,
    policy: NodeId,
    told: &QueryClasses,
    old: &Install,
) -> Result<Renewed, CompileFault>
    requires compilable { IsCompilable (document_tree document.now) }
    requires values { HasFewValues (document_tree document.now) }
    requires policy { ForwardsAt (document_tree document.now) forward.now policy }
    requires told { IsClassified (document_tree document.now) told.now }
    requires before { IsBefore (document_tree document.now) forward.now before old.now }
    requires old { IsLawfulInstall old.now }
    requires topology { old.now.topology ≡ document.now.topology }
    ensures renewed { IfOk result (IsRenewed (document_tree document.now) old.now) }
    ensures cause { IfErr result (IsCompileFault (document_tree document.now)) }
{
    let install = match installed_after(alloc, document, forward, before, policy, told, old) {
        Ok(install) => install,
        Err(fault) => return Err(CompileFault::of_rules(fault)),
    };
    match delta(alloc, old, &install) {
        Ok(messages) => Ok(Renewed { install, messages }),
        Err(_) => Err(CompileFault::Memory),
    }
}
