//! The numbers of queries.
ghost use Rattle.std.specs.Prelude.{◌≡◌, OnOk, map};
ghost use Rattle.pq_fields.specs.Pred.{pred_tree};
ghost use Rattle.pq_query.specs.Instances.{named_trees};
ghost use Rattle.pq_query.specs.Query.{queries, query_tree};
ghost use Rattle.pq_values.specs.Known.{with_each, with_group, with_queries, with_query, with_side};

use crate::numbers::put_numbers;
use crate::predicates::put_pred;
use indexmap::IndexSet;
use pq_fields::{Field, Pred};
use pq_query::{Group, Query};
use pq_term::Name;
use std::alloc::AllocError;

/// Adds the values that are stated for a grouped field.
fn put_group(group: &Group, known: &mut IndexSet<(Field, u64)>) -> Result<(), AllocError>
    ensures { OnOk result (known.new.keys ≡ with_group group.now known.old.keys) }
{
    match &group.values {
        Some(values) => put_numbers(group.field, values, known),
        None => Ok(()),
    }
}

/// Adds the values that are stated for grouped fields.
fn put_groups(groups: &[Group], known: &mut IndexSet<(Field, u64)>) -> Result<(), AllocError>
    ensures { OnOk result (known.new.keys ≡ with_each with_group groups.now known.old.keys) }
{
    for group in groups {
        put_group(group, known)?;
    }
    Ok(())
}

/// Adds the numbers of what an atom says of a packet.
fn put_side(
    pred: &Pred,
    groups: &[Group],
    known: &mut IndexSet<(Field, u64)>,
) -> Result<(), AllocError>
    ensures { OnOk result (known.new.keys ≡ with_side (pred_tree pred.now) groups.now known.old.keys) }
{
    put_pred(pred, known)?;
    put_groups(groups, known)
}

/// Adds the numbers of an atom of two packets.
fn put_sides(
    pred: &Pred,
    groups: &[Group],
    other: &Pred,
    others: &[Group],
    known: &mut IndexSet<(Field, u64)>,
) -> Result<(), AllocError>
    ensures { OnOk result (known.new.keys ≡ with_side (pred_tree other.now) others.now (with_side (pred_tree pred.now) groups.now known.old.keys)) }
{
    put_side(pred, groups, known)?;
    put_side(other, others, known)
}

/// Adds the numbers that the query tests, and the values that it groups by.
/// It recurs as deep as the query nests, in a document at most 100.
#[cycle(query)]
fn put_query(query: &Query, known: &mut IndexSet<(Field, u64)>) -> Result<(), AllocError>
    ensures { OnOk result (known.new.keys ≡ with_query (query_tree query.now) known.old.keys) }
{
    match query {
        Query::In(pred, groups) => put_side(pred, groups, known),
        Query::Out(pred, groups) => put_side(pred, groups, known),
        Query::InOut(pred, groups, other, others) => put_sides(pred, groups, other, others, known),
        Query::End(pred) => put_pred(pred, known),
        Query::Cat(operands) => put_queries(operands, known),
        Query::Or(operands) => put_queries(operands, known),
        Query::And(operands) => put_queries(operands, known),
        Query::Not(operand) => put_query(operand, known),
        Query::Star(operand) => put_query(operand, known),
    }
}

/// Adds the numbers of the queries.
#[cycle(query)]
fn put_queries(operands: &[Query], known: &mut IndexSet<(Field, u64)>) -> Result<(), AllocError>
    ensures { OnOk result (known.new.keys ≡ with_queries (queries (map query_tree operands.now)) known.old.keys) }
{
    for query in operands {
        put_query(query, known)?;
    }
    Ok(())
}

/// Adds the numbers of queries that have names.
pub(crate) fn put_named(
    queries: &[(Name, Query)],
    known: &mut IndexSet<(Field, u64)>,
) -> Result<(), AllocError>
    ensures { OnOk result (known.new.keys ≡ with_each with_query (named_trees queries.now) known.old.keys) }
{
    for query in queries {
        put_query(&query.1, known)?;
    }
    Ok(())
}
