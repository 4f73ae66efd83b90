//! The numbers of predicates.
ghost use Rattle.std.specs.Prelude.{◌≡◌, OnOk};
ghost use Rattle.pq_fields.specs.Pred.{pred_tree, pred_trees};
ghost use Rattle.pq_values.specs.Known.{with_pred, with_preds};

use crate::numbers::put_number;
use indexmap::IndexSet;
use pq_fields::{Field, Pred};
use std::alloc::AllocError;

/// Adds the numbers of the tests of the predicate. It recurs as deep as the predicate nests, in a document at most 100.
#[cycle(pred)]
pub(crate) fn put_pred(pred: &Pred, known: &mut IndexSet<(Field, u64)>) -> Result<(), AllocError>
    ensures { OnOk result (known.new.keys ≡ with_pred (pred_tree pred.now) known.old.keys) }
{
    match pred {
        Pred::True => Ok(()),
        Pred::False => Ok(()),
        Pred::Equal(field, number) => put_number(*field, *number, known),
        Pred::Prefix(_, _, _) => Ok(()),
        Pred::Wide(_, _, _) => Ok(()),
        Pred::And(preds) => put_preds(preds, known),
        Pred::Or(preds) => put_preds(preds, known),
        Pred::Not(pred) => put_pred(pred, known),
    }
}

/// Adds the numbers of the tests of the predicates.
#[cycle(pred)]
fn put_preds(preds: &[Pred], known: &mut IndexSet<(Field, u64)>) -> Result<(), AllocError>
    ensures { OnOk result (known.new.keys ≡ with_preds (pred_trees preds.now) known.old.keys) }
{
    for pred in preds {
        put_pred(pred, known)?;
    }
    Ok(())
}
