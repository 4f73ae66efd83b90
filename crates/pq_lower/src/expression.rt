//! Queries as expressions.
ghost use Rattle.std.specs.Prelude.{◌≡◌, ◌≤◌, ◌<◌, ◌+◌, ◌*◌, ◌^◌, ◌↔◌, true, ◌++◌, List, All, IfOk, OnOk, OnErr, map, length};
ghost use Rattle.pq_fields.specs.declared.pred.Pred.{Pred as PredValue};
ghost use Rattle.pq_fields.specs.Pred.{IsLawfulPred, pred_tree};
ghost use Rattle.pq_model.specs.Word.{Word, is_word};
ghost use Rattle.pq_expr.specs.Expr.{IsLawful, bound, expr_tree};
ghost use Rattle.pq_expr.specs.Language.{holds};
ghost use Rattle.pq_query.specs.Language.{lang};
ghost use Rattle.pq_query.specs.Lawful.{IsLawfulQuery};
ghost use Rattle.pq_query.specs.Query.{query_tree};
ghost use Rattle.pq_lower.specs.HalfSteps.{half_steps};
ghost use Rattle.pq_lower.specs.Added.{added_preds};
ghost use Rattle.pq_lower.specs.Built.{IsFittingLabel};
ghost use Rattle.pq_lower.specs.Depth.{depth, query_depth};
ghost use Rattle.pq_query.specs.Atoms.{query_atoms};

use crate::lowering::lower_query;
use crate::predicates::every_packet;
use pq_expr::Expr;
use pq_fields::{Label, Pred};
use pq_query::Query;
use std::alloc::{AllocError, Global};

/// The half-step expression of a query under a label, over a list of predicates that grows by those that the query needs.
///
/// The label has a value for each grouped field of the query, in text order; a test without a value holds of no packet. The
/// list gains one predicate that holds of every packet, and then those of the atoms in text order: one for an atom of one
/// packet, two for an atom of two. It fails only where there is no memory, and then leaves the list as it was.
pub fn lower(
    alloc: Global,
    query: &Query,
    label: &Label,
    preds: &mut Vec<Pred>,
) -> Result<Expr, AllocError>
    requires preds { length preds.old.items < 2 ^ 31 }
    requires atoms { query_atoms (query_tree query.now) < 2 ^ 29 }
    ensures language { IfOk result (λ e. (w : Word) → is_word w ≡ true
        → (lang (query_tree query.now) label.now w ↔ (holds (expr_tree e) (half_steps (map pred_tree preds.new.items) w) ≡ true))) }
    ensures grown { OnOk result ((more : List PredValue) × (preds.new.items ≡ preds.old.items ++ more)
        × (length more ≤ 1 + 2 * query_atoms (query_tree query.now))) }
    ensures added { OnOk result (map pred_tree preds.new.items ≡ map pred_tree preds.old.items ++ added_preds (query_tree query.now) label.now) }
    ensures lawful_preds { OnOk result (IsLawfulQuery (query_tree query.now) → IsFittingLabel (query_tree query.now) label.now
        → All IsLawfulPred (map pred_tree preds.old.items) → All IsLawfulPred (map pred_tree preds.new.items)) }
    ensures bound { IfOk result (λ e. bound (expr_tree e) ≤ length preds.new.items) }
    ensures lawful { IfOk result (λ e. IsLawful (expr_tree e)) }
    ensures depth { IfOk result (λ e. depth (expr_tree e) ≤ 1 + 2 * query_depth (query_tree query.now)) }
    ensures err { OnErr result (preds.new.items ≡ preds.old.items) }
{
    let base = preds.len() as u32;
    let mut added = Vec::new(alloc);
    added.push(every_packet())?;
    let mut place = 0;
    let expr = lower_query(alloc, base, query, label.values(), &mut place, &mut added)?;
    preds.append(&mut added)?;
    Ok(expr)
}
