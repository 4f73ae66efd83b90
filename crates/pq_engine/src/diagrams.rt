//! Diagrams of parts, and their sums.
ghost use Rattle.std.specs.Prelude.{◌≡◌, ◌≤◌, ◌<◌, ◌+◌, ◌*◌, ◌^◌, ℕ, suc, length, sum_by, List, IfOk};
ghost use Rattle.pq_forward.specs.Forward.{work};
ghost use Rattle.pq_policy.specs.Policy.{PolicyTree};
ghost use Rattle.pq_store.specs.Store.{Keeps};
ghost use Rattle.pq_sum.specs.Cells.{at_place};
ghost use Rattle.pq_sum.specs.Places.{IsSummed};
ghost use Rattle.pq_sum.specs.Sum.{AreParts, UnitesParts};
ghost use Rattle.pq_compile.specs.Documents.{document_tree};
ghost use Rattle.pq_compile.specs.Prepared.{HasFewValues, IsCompilable, parts_in};
ghost use Rattle.pq_engine.specs.Sums.{AwaitsPart, AwaitsRemoval};

use pq_compile::Document;
use pq_io::Steps;
use pq_meaning::parts_forward;
use pq_rewrite::WriteSet;
use pq_store::{NodeId, Store};
use pq_sum::Sum;
use std::alloc::AllocError;
use std::sync::ledger::Ledger;

/// The diagram of the part of a place.
fn part_diagram<L: Ledger>(
    document: &Document,
    store: &mut Store<WriteSet>,
    place: usize,
    steps: &mut Steps<L>,
) -> Result<NodeId, AllocError>
    requires compilable { IsCompilable (document_tree document.now) }
    requires values { HasFewValues (document_tree document.now) }
    requires place { place < length document.now.parts.items }
    ensures part { IfOk result (UnitesParts document.now.topology store.new (at_place place (parts_in (document_tree document.now)))) }
    ensures keeps { Keeps store.old store.new }
    ensures steps { steps.new ≤ steps.old + sum_by work (at_place place (parts_in (document_tree document.now))) }
{
    let mut tests = Store::new(store.allocator());
    let id = parts_forward(
        &mut tests,
        store,
        &document.parts[place..place + 1],
        &document.topology,
        steps,
    )?;
    Ok(id)
}

/// The diagrams of all parts.
fn part_diagrams<L: Ledger>(
    document: &Document,
    store: &mut Store<WriteSet>,
    steps: &mut Steps<L>,
) -> Result<Vec<NodeId>, AllocError>
    requires compilable { IsCompilable (document_tree document.now) }
    requires values { HasFewValues (document_tree document.now) }
    ensures { IfOk result (λ ids. AreParts document.now.topology store.new (parts_in (document_tree document.now)) ids.items) }
{
    let mut ids = Vec::new(store.allocator());
    for place in 0..document.parts.len() {
        let id = part_diagram(document, store, place, steps)?;
        ids.push(id)?;
    }
    Ok(ids)
}

/// The sum of a document's parts, in a store of its own.
pub(crate) fn parts_sum<L: Ledger>(
    document: &Document,
    store: &mut Store<WriteSet>,
    steps: &mut Steps<L>,
) -> Result<Sum, AllocError>
    requires compilable { IsCompilable (document_tree document.now) }
    requires values { HasFewValues (document_tree document.now) }
    ensures { IfOk result (IsSummed document.now.topology store.new (parts_in (document_tree document.now))) }
{
    let ids = part_diagrams(document, store, steps)?;
    let sum = Sum::open(store, &ids, steps)?;
    Ok(sum)
}

/// The sum of the parts in a store of its own, from the one before the part of the place was put there. The diagram of all parts
/// before is in that store too, at the last place that is given.
pub(crate) fn with_part<L: Ledger>(
    document: &Document,
    forward: &Store<WriteSet>,
    sum: &Sum,
    place: usize,
    steps: &mut Steps<L>,
) -> Result<(Store<WriteSet>, Sum, NodeId), AllocError>
    requires compilable { IsCompilable (document_tree document.now) }
    requires values { HasFewValues (document_tree document.now) }
    requires awaits { AwaitsPart (document_tree document.now) forward.now sum.now place }
    ensures sum { IfOk result (λ r. IsSummed document.now.topology r.0 (parts_in (document_tree document.now)) r.1) }
    ensures before { IfOk result (λ r. (ps : List PolicyTree) → IsSummed document.now.topology forward.now ps sum.now
        → UnitesParts document.now.topology r.0 ps r.2) }
    ensures steps { (k : ℕ) → length document.now.parts.items ≤ 2 ^ k
        → steps.new ≤ steps.old + sum_by work (at_place place (parts_in (document_tree document.now))) + k }
{
    let (mut store, mut sum) = sum.copied(forward)?;
    let before = sum.total();
    let part = part_diagram(document, &mut store, place, steps)?;
    sum.put(&mut store, place, part, steps)?;
    Ok((store, sum, before))
}

/// The sum of the parts in a store of its own, from the one before a part was taken out of the place. The diagram of all parts
/// before is in that store too, at the last place that is given.
pub(crate) fn without_part<L: Ledger>(
    document: &Document,
    forward: &Store<WriteSet>,
    sum: &Sum,
    place: usize,
    steps: &mut Steps<L>,
) -> Result<(Store<WriteSet>, Sum, NodeId), AllocError>
    requires awaits { AwaitsRemoval (document_tree document.now) forward.now sum.now place }
    ensures sum { IfOk result (λ r. IsSummed document.now.topology r.0 (parts_in (document_tree document.now)) r.1) }
    ensures before { IfOk result (λ r. (ps : List PolicyTree) → IsSummed document.now.topology forward.now ps sum.now
        → UnitesParts document.now.topology r.0 ps r.2) }
    ensures steps { (k : ℕ) → suc (length document.now.parts.items) ≤ 2 ^ k → steps.new ≤ steps.old + 2 * k }
{
    let (mut store, mut sum) = sum.copied(forward)?;
    let before = sum.total();
    sum.remove(&mut store, place, steps)?;
    Ok((store, sum, before))
}
