//! The expressions of instances.
ghost use Rattle.std.specs.Prelude.{◌≡◌, ◌<◌, ◌≤◌, ◌+◌, ◌^◌, ◌++◌, All, IfOk, OnOk, Some, length, map, slice_get};
ghost use Rattle.pq_fields.specs.Pred.{pred_tree};
ghost use Rattle.pq_expr.specs.Expr.{expr_tree};
ghost use Rattle.pq_query.specs.Instances.{named_trees};
ghost use Rattle.pq_query.specs.Query.{QueryTree};
ghost use Rattle.pq_lower.specs.Added.{added_preds};
ghost use Rattle.pq_query.specs.Atoms.{query_atoms};
ghost use Rattle.pq_classes.specs.Lowered.{AreLowered, IsAdded, IsLowered};

use pq_expr::Expr;
use pq_fields::Pred;
use pq_lower::lower;
use pq_query::{Instance, Query};
use pq_term::Name;
use std::alloc::{AllocError, Global};

/// The expressions of instances, over predicates of packets.
#[derive(Debug, Drop)]
pub(crate) struct LoweredInstances {
    pub(crate) preds: Vec<Pred>,
    pub(crate) exprs: Vec<Expr>,
}

/// The expression of an instance, whose predicates are added to the list.
fn lowered_one(
    alloc: Global,
    queries: &[(Name, Query)],
    instance: &Instance,
    preds: &mut Vec<Pred>,
) -> Result<Expr, AllocError>
    requires within { instance.now.query < length queries.now }
    requires atoms { All (λ q. query_atoms q < 2 ^ 19) (named_trees queries.now) }
    requires room { length preds.old.items < 2 ^ 31 }
    ensures lowered { IfOk result (λ e. IsLowered (named_trees queries.now) (map pred_tree preds.new.items) instance.now (expr_tree e)) }
    ensures added { OnOk result ((q : QueryTree) → slice_get (named_trees queries.now) instance.now.query ≡ Some q
        → map pred_tree preds.new.items ≡ map pred_tree preds.old.items ++ added_preds q instance.now.label) }
    ensures few { OnOk result (length preds.new.items ≤ length preds.old.items + 2 ^ 20) }
{
    let query = &queries[instance.query as usize].1;
    lower(alloc, query, &instance.label, preds)
}

/// The expressions of the instances of queries, in order, over the predicates that they need.
pub(crate) fn lowered(
    alloc: Global,
    queries: &[(Name, Query)],
    instances: &[Instance],
) -> Result<LoweredInstances, AllocError>
    requires within { All (λ i. i.query < length queries.now) instances.now }
    requires few { length instances.now ≤ 1024 }
    requires atoms { All (λ q. query_atoms q < 2 ^ 19) (named_trees queries.now) }
    ensures lowered { IfOk result (λ l. AreLowered (named_trees queries.now) (map pred_tree l.preds.items) instances.now (map expr_tree l.exprs.items)) }
    ensures added { IfOk result (λ l. All (IsAdded (named_trees queries.now) instances.now) (map pred_tree l.preds.items)) }
{
    let mut preds = Vec::new(alloc);
    let mut exprs = Vec::with_capacity(alloc, instances.len())?;
    for instance in instances {
        let expr = lowered_one(alloc, queries, instance, &mut preds)?;
        exprs.push(expr)?;
    }
    Ok(LoweredInstances { preds, exprs })
}
