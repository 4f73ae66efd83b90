//! Queries as expressions, by recursion on their operands.
ghost use Rattle.std.specs.Prelude.{◌≡◌, ◌≤◌, ◌<◌, ◌+◌, ◌*◌, ◌^◌, ◌++◌, IfOk, OnOk, map, drop, length};
ghost use Rattle.pq_fields.specs.Pred.{pred_tree};
ghost use Rattle.pq_expr.specs.Expr.{expr_tree};
ghost use Rattle.pq_query.specs.Language.{share};
ghost use Rattle.pq_query.specs.Labels.{groups_of};
ghost use Rattle.pq_query.specs.Query.{queries, query_tree};
ghost use Rattle.pq_lower.specs.Added.{preds_of, query_preds};
ghost use Rattle.pq_query.specs.Atoms.{atoms, query_atoms};
ghost use Rattle.pq_lower.specs.Lowered.{lowered, lowered_each};

use crate::atoms::{one_seen, one_sent, two_seen};
use crate::operators::{all_of, any_of, other_than, repeated, turn_of};
use crate::predicates::{dropped, entering, leaving, passing};
use crate::twins::copy_of;
use pq_expr::Expr;
use pq_fields::Pred;
use pq_query::Query;
use std::alloc::{AllocError, Global};

/// The expression of a query under the label from a place on; its predicates are added to those from `base` on, the first of
/// which holds of every packet. It recurs as deep as the query nests, in a document at most 100.
#[cycle(queries)]
pub(crate) fn lower_query(
    alloc: Global,
    base: u32,
    query: &Query,
    label: &[u64],
    place: &mut usize,
    added: &mut Vec<Pred>,
) -> Result<Expr, AllocError>
    requires place { place.old ≤ length label.now }
    requires room { base + (length added.old.items + 2 * query_atoms (query_tree query.now)) < 2 ^ 32 }
    ensures expr { IfOk result (λ e. expr_tree e ≡ lowered base (base + length added.old.items) (query_tree query.now)) }
    ensures added { OnOk result (map pred_tree added.new.items
        ≡ map pred_tree added.old.items ++ query_preds (query_tree query.now) (drop place.old label.now)) }
    ensures place { OnOk result (drop place.new label.now ≡ drop (share (query_tree query.now).top (query_tree query.now).below) (drop place.old label.now)) }
    ensures within { place.new ≤ length label.now }
{
    match query {
        Query::In(pred, groups) => {
            let pred = entering(alloc, pred, groups, label, place)?;
            one_seen(alloc, base, pred, added)
        }
        Query::Out(pred, groups) => {
            let pred = leaving(alloc, pred, groups, label, place)?;
            one_sent(alloc, base, pred, added)
        }
        Query::InOut(pred, groups, other, others) => {
            let (first, second) = passing(alloc, pred, groups, other, others, label, place)?;
            two_seen(alloc, base, first, second, added)
        }
        Query::End(pred) => {
            let first = copy_of(alloc, pred)?;
            two_seen(alloc, base, first, dropped(), added)
        }
        Query::Cat(queries) => {
            let exprs = lower_each(alloc, base, queries, label, place, added)?;
            Ok(turn_of(exprs))
        }
        Query::Or(queries) => {
            let exprs = lower_each(alloc, base, queries, label, place, added)?;
            Ok(any_of(exprs))
        }
        Query::And(queries) => {
            let exprs = lower_each(alloc, base, queries, label, place, added)?;
            all_of(alloc, base, exprs)
        }
        Query::Not(query) => {
            let expr = lower_query(alloc, base, query, label, place, added)?;
            other_than(alloc, base, expr)
        }
        Query::Star(query) => {
            let expr = lower_query(alloc, base, query, label, place, added)?;
            repeated(alloc, expr)
        }
    }
}

/// The expressions of queries, in order.
#[cycle(queries)]
fn lower_each(
    alloc: Global,
    base: u32,
    operands: &[Query],
    label: &[u64],
    place: &mut usize,
    added: &mut Vec<Pred>,
) -> Result<Vec<Expr>, AllocError>
    requires place { place.old ≤ length label.now }
    requires room { base + (length added.old.items + 2 * atoms (queries (map query_tree operands.now))) < 2 ^ 32 }
    ensures exprs { IfOk result (λ es. map expr_tree es.items ≡ lowered_each base (base + length added.old.items) (queries (map query_tree operands.now))) }
    ensures added { OnOk result (map pred_tree added.new.items
        ≡ map pred_tree added.old.items ++ preds_of (queries (map query_tree operands.now)) (drop place.old label.now)) }
    ensures place { OnOk result (drop place.new label.now ≡ drop (length (groups_of (queries (map query_tree operands.now)))) (drop place.old label.now)) }
    ensures within { place.new ≤ length label.now }
{
    let mut exprs = Vec::new(alloc);
    for query in operands {
        let expr = lower_query(alloc, base, query, label, place, added)?;
        exprs.push(expr)?;
    }
    Ok(exprs)
}
