//! Copies of predicates.
ghost use Rattle.std.specs.Prelude.{◌≡◌, IfOk};
ghost use Rattle.pq_fields.specs.Pred.{pred_tree, pred_trees};

use pq_fields::Pred;
use std::alloc::{AllocError, Global};

/// An equal predicate; it fails only where there is no memory for it.
/// It recurs as deep as the predicate nests, in a document at most 100.
#[cycle(copy)]
pub(crate) fn copy_of(alloc: Global, pred: &Pred) -> Result<Pred, AllocError>
    ensures { IfOk result (λ p. pred_tree p ≡ pred_tree pred.now) }
{
    match pred {
        Pred::True => Ok(Pred::True),
        Pred::False => Ok(Pred::False),
        Pred::Equal(field, value) => Ok(Pred::Equal(*field, *value)),
        Pred::Prefix(field, value, len) => Ok(Pred::Prefix(*field, *value, *len)),
        Pred::Wide(field, value, len) => Ok(Pred::Wide(*field, *value, *len)),
        Pred::And(preds) => Ok(Pred::And(copies(alloc, preds)?)),
        Pred::Or(preds) => Ok(Pred::Or(copies(alloc, preds)?)),
        Pred::Not(pred) => Ok(Pred::Not(boxed_copy(alloc, pred)?)),
    }
}

/// An equal predicate, on the heap.
#[cycle(copy)]
fn boxed_copy(alloc: Global, pred: &Pred) -> Result<Box<Pred>, AllocError>
    ensures { IfOk result (λ b. pred_tree b.value ≡ pred_tree pred.now) }
{
    let copy = copy_of(alloc, pred)?;
    match Box::new(alloc, copy) {
        Ok(boxed) => Ok(boxed),
        Err(_) => Err(AllocError),
    }
}

/// Equal predicates, in order.
#[cycle(copy)]
fn copies(alloc: Global, preds: &[Pred]) -> Result<Vec<Pred>, AllocError>
    ensures { IfOk result (λ ps. pred_trees ps.items ≡ pred_trees preds.now) }
{
    let mut all = Vec::new(alloc);
    for pred in preds {
        let copy = copy_of(alloc, pred)?;
        all.push(copy)?;
    }
    Ok(all)
}
