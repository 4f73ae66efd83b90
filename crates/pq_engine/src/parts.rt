//! Changes of one part of a document.
ghost use Rattle.std.specs.Prelude.{◌≡◌, ◌≤◌, ◌+◌, ◌*◌, ◌^◌, ℕ, suc, length, sum_by, IfErr, IfOk, OnErr, OnOk};
ghost use Rattle.pq_forward.specs.Forward.{work};
ghost use Rattle.pq_policy.specs.Policy.{policy_tree};
ghost use Rattle.pq_sum.specs.Cells.{at_place};
ghost use Rattle.pq_sum.specs.Places.{IsSummed};
ghost use Rattle.pq_compile.specs.Compiled.{IsCompileFault, IsInstalled};
ghost use Rattle.pq_compile.specs.Documents.{document_tree};
ghost use Rattle.pq_compile.specs.Prepared.{HasFewValues, IsClassified, IsCompilable, parts_in};
ghost use Rattle.pq_edit.specs.Edits.{IsLawfulEdit, PartPut, PartRemoved, edited};
ghost use Rattle.pq_local.specs.Local.{IsBefore};
ghost use Rattle.pq_engine.specs.Changes.{IsPartsChange, IsRenewable, IsUnionWork, WasKept};
ghost use Rattle.pq_engine.specs.Engine.{IsEngine, engine_of};
ghost use Rattle.pq_engine.specs.Sums.{AwaitsPart, AwaitsRemoval};

use crate::diagrams::{with_part, without_part};
use crate::kept::Kept;
use crate::named::{insert_back, place_of, put_at, put_back, remove_at};
use crate::renewal::{Renewed, renew_parts};
use pq_compile::{CompileFault, Document, few_values};
use pq_edit::edited_documents_are_lawful;
use pq_io::Steps;
use pq_policy::Policy;
use pq_rewrite::WriteSet;
use pq_store::{NodeId, Store};
use pq_sum::Sum;
use pq_term::Name;
use std::alloc::Global;
use std::sync::ledger::Ledger;

/// What a change of the parts makes.
#[derive(Drop)]
pub(crate) struct PartsChange {
    /// The store of the diagrams of the parts, and the sum of these.
    pub(crate) forward: Store<WriteSet>,
    pub(crate) sum: Sum,
    pub(crate) renewed: Renewed,
}

/// The change to a sum of the document's parts, from the diagram of the parts before, which is at the place `before` of the sum's
/// store; this is left with nothing but the diagrams of the sum.
fn summed(
    alloc: Global,
    document: &Document,
    kept: &Kept,
    forward: &Store<WriteSet>,
    sum: &Sum,
    before: NodeId,
) -> Result<PartsChange, CompileFault>
    requires renewable { IsRenewable (document_tree document.now) kept.now }
    requires values { HasFewValues (document_tree document.now) }
    requires classified { IsClassified (document_tree document.now) kept.now.told }
    requires summed { IsSummed document.now.topology forward.now (parts_in (document_tree document.now)) sum.now }
    requires before { IsBefore (document_tree document.now) forward.now before kept.now.install }
    ensures change { IfOk result (IsPartsChange (document_tree document.now) kept.now.install) }
    ensures cause { IfErr result (IsCompileFault (document_tree document.now)) }
{
    let renewed = match renew_parts(
        alloc,
        document,
        forward,
        before,
        sum.total(),
        &kept.told,
        &kept.install,
    ) {
        Ok(renewed) => renewed,
        Err(fault) => return Err(fault),
    };
    match sum.copied(forward) {
        Ok((forward, sum)) => Ok(PartsChange {
            forward,
            sum,
            renewed,
        }),
        Err(_) => Err(CompileFault::Memory),
    }
}

/// The change to a document, one part of which was put into the place.
fn part_put<L: Ledger>(
    alloc: Global,
    document: &Document,
    kept: &Kept,
    place: usize,
    unions: &mut Steps<L>,
) -> Result<PartsChange, CompileFault>
    requires renewable { IsRenewable (document_tree document.now) kept.now }
    requires classified { IsClassified (document_tree document.now) kept.now.told }
    requires awaits { AwaitsPart (document_tree document.now) kept.now.forward kept.now.sum place }
    requires was { WasKept (document_tree document.now) kept.now }
    ensures change { IfOk result (IsPartsChange (document_tree document.now) kept.now.install) }
    ensures cause { IfErr result (IsCompileFault (document_tree document.now)) }
    ensures steps { (k : ℕ) → length document.now.parts.items ≤ 2 ^ k
        → unions.new ≤ unions.old + sum_by work (at_place place (parts_in (document_tree document.now))) + k }
{
    match few_values(alloc, document) {
        Ok(()) => {}
        Err(fault) => return Err(CompileFault::of_prepare(fault)),
    }
    let (forward, sum, before) = match with_part(
        document,
        &kept.forward,
        &kept.sum,
        place,
        unions,
    ) {
        Ok(made) => made,
        Err(_) => return Err(CompileFault::Memory),
    };
    summed(alloc, document, kept, &forward, &sum, before)
}

/// The change to a document, one part of which was taken out of the place.
fn part_removed<L: Ledger>(
    alloc: Global,
    document: &Document,
    kept: &Kept,
    place: usize,
    unions: &mut Steps<L>,
) -> Result<PartsChange, CompileFault>
    requires renewable { IsRenewable (document_tree document.now) kept.now }
    requires classified { IsClassified (document_tree document.now) kept.now.told }
    requires awaits { AwaitsRemoval (document_tree document.now) kept.now.forward kept.now.sum place }
    requires was { WasKept (document_tree document.now) kept.now }
    ensures change { IfOk result (IsPartsChange (document_tree document.now) kept.now.install) }
    ensures cause { IfErr result (IsCompileFault (document_tree document.now)) }
    ensures steps { (k : ℕ) → suc (length document.now.parts.items) ≤ 2 ^ k → unions.new ≤ unions.old + 2 * k }
{
    match few_values(alloc, document) {
        Ok(()) => {}
        Err(fault) => return Err(CompileFault::of_prepare(fault)),
    }
    let (forward, sum, before) = match without_part(
        document,
        &kept.forward,
        &kept.sum,
        place,
        unions,
    ) {
        Ok(made) => made,
        Err(_) => return Err(CompileFault::Memory),
    };
    summed(alloc, document, kept, &forward, &sum, before)
}

/// Puts a part into a document, and makes what changes with it. After a refusal the document is as it was.
pub(crate) fn put_part<L: Ledger>(
    alloc: Global,
    document: &mut Document,
    kept: &Kept,
    name: Name,
    policy: Policy,
    unions: &mut Steps<L>,
) -> Result<PartsChange, CompileFault>
    requires kept { IsEngine (engine_of (document_tree document.old) kept.now) }
    requires lawful { IsLawfulEdit (document_tree document.old) (PartPut (name, policy_tree policy)) }
    ensures document { OnOk result (document_tree document.new ≡ edited (document_tree document.old) (PartPut (name, policy_tree policy))) }
    ensures change { IfOk result (IsPartsChange (edited (document_tree document.old) (PartPut (name, policy_tree policy))) kept.now.install) }
    ensures kept { OnErr result (document_tree document.new ≡ document_tree document.old) }
    ensures cause { IfErr result (IsCompileFault (edited (document_tree document.old) (PartPut (name, policy_tree policy)))) }
    ensures unions { IsUnionWork (document_tree document.old) (PartPut (name, policy_tree policy)) unions.old unions.new }
{
    edited_documents_are_lawful();
    let place = place_of(&document.parts, &name);
    let old = match put_at(&mut document.parts, place, (name, policy)) {
        Ok(old) => old,
        Err(_) => return Err(CompileFault::Memory),
    };
    match part_put(alloc, document, kept, place, unions) {
        Ok(change) => Ok(change),
        Err(fault) => {
            put_back(&mut document.parts, place, old);
            Err(fault)
        }
    }
}

/// Takes a part out of a document, and makes what changes with it. After a refusal the document is as it was.
pub(crate) fn remove_part<L: Ledger>(
    alloc: Global,
    document: &mut Document,
    kept: &Kept,
    name: Name,
    unions: &mut Steps<L>,
) -> Result<PartsChange, CompileFault>
    requires kept { IsEngine (engine_of (document_tree document.old) kept.now) }
    requires lawful { IsLawfulEdit (document_tree document.old) (PartRemoved name) }
    ensures document { OnOk result (document_tree document.new ≡ edited (document_tree document.old) (PartRemoved name)) }
    ensures change { IfOk result (IsPartsChange (edited (document_tree document.old) (PartRemoved name)) kept.now.install) }
    ensures kept { OnErr result (document_tree document.new ≡ document_tree document.old) }
    ensures cause { IfErr result (IsCompileFault (edited (document_tree document.old) (PartRemoved name))) }
    ensures unions { IsUnionWork (document_tree document.old) (PartRemoved name) unions.old unions.new }
{
    edited_documents_are_lawful();
    let place = place_of(&document.parts, &name);
    let old = remove_at(&mut document.parts, place);
    match part_removed(alloc, document, kept, place, unions) {
        Ok(change) => Ok(change),
        Err(fault) => {
            insert_back(&mut document.parts, place, old);
            Err(fault)
        }
    }
}
