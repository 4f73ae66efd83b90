//! The atoms of a query, from their trees.
ghost use Rattle.std.specs.Prelude.{◌≡◌, [], ◌∷◌};
ghost use Rattle.pq_tree.specs.Trees.{trees};
ghost use Rattle.pq_fields.specs.Pred.{pred_tree};
ghost use Rattle.pq_topo.specs.Naming.{IsAnswer, next};
ghost use Rattle.pq_query.specs.Query.{query_tree};
ghost use Rattle.pq_query.specs.Resolved.{atom_of, bare_in, end_of, entering, grouped_hop_of, grouped_in, groups_in, hop_of, later, leaving, passing, pred_in};

use crate::group::Group;
use crate::groups::groups_at;
use crate::query::Query;
use pq_fields::Pred;
use pq_grammar::{Class, is_class};
use pq_pred::{faulty, resolve_pred};
use pq_term::Token;
use pq_topo::{NameFault, NameKind, Topology};
use pq_tree::{Term, class_in_text};
use std::alloc::Global;

/// The terms after the first.
fn later<'a>(terms: &'a [Term<'a>]) -> &'a [Term<'a>]
    ensures { trees result.now ≡ later (trees terms.now) }
{
    match terms {
        [_, rest @ ..] => rest,
        [] => &[],
    }
}

/// The predicate that is first.
fn pred_in(
    alloc: Global,
    bytes: &[u8],
    topology: &Topology,
    head: &Token,
    terms: &[Term<'_>],
) -> Result<Pred, NameFault>
    ensures { IsAnswer pred_tree result (pred_in topology.now bytes.now head.now (trees terms.now)) }
{
    match terms {
        [term, ..] => resolve_pred(alloc, term, bytes, topology),
        [] => Err(faulty(head, NameKind::BadValue)),
    }
}

/// The groups of the brackets that are first.
fn groups_in(
    alloc: Global,
    bytes: &[u8],
    topology: &Topology,
    head: &Token,
    terms: &[Term<'_>],
) -> Result<Vec<Group>, NameFault>
    ensures { IsAnswer (λ gs. gs.items) result (groups_in topology.now bytes.now head.now (trees terms.now)) }
{
    match terms {
        [brackets, ..] => groups_at(alloc, bytes, topology, brackets.children),
        [] => Err(faulty(head, NameKind::BadValue)),
    }
}

/// The predicate that is first, without groups.
fn bare_in(
    alloc: Global,
    bytes: &[u8],
    topology: &Topology,
    head: &Token,
    terms: &[Term<'_>],
) -> Result<(Pred, Vec<Group>), NameFault>
    ensures { IsAnswer (λ s. (pred_tree s.0, s.1.items)) result (bare_in topology.now bytes.now head.now (trees terms.now)) }
{
    let pred = pred_in(alloc, bytes, topology, head, terms)?;
    Ok((pred, Vec::new(alloc)))
}

/// The predicate that is first, and the groups of the brackets after it.
fn grouped_in(
    alloc: Global,
    bytes: &[u8],
    topology: &Topology,
    head: &Token,
    terms: &[Term<'_>],
) -> Result<(Pred, Vec<Group>), NameFault>
    ensures { IsAnswer (λ s. (pred_tree s.0, s.1.items)) result (grouped_in topology.now bytes.now head.now (trees terms.now)) }
{
    let pred = pred_in(alloc, bytes, topology, head, terms)?;
    let groups = groups_in(alloc, bytes, topology, head, later(terms))?;
    Ok((pred, groups))
}

/// The atom of two predicates, one after the other.
fn hop_of(
    alloc: Global,
    bytes: &[u8],
    topology: &Topology,
    head: &Token,
    terms: &[Term<'_>],
) -> Result<Query, NameFault>
    ensures { IsAnswer query_tree result (hop_of topology.now bytes.now head.now (trees terms.now)) }
{
    let (first, none) = bare_in(alloc, bytes, topology, head, terms)?;
    let (second, neither) = bare_in(alloc, bytes, topology, head, later(terms))?;
    Ok(Query::InOut(first, none, second, neither))
}

/// The atom of two predicates with brackets each, one after the other.
fn grouped_hop_of(
    alloc: Global,
    bytes: &[u8],
    topology: &Topology,
    head: &Token,
    terms: &[Term<'_>],
) -> Result<Query, NameFault>
    ensures { IsAnswer query_tree result (grouped_hop_of topology.now bytes.now head.now (trees terms.now)) }
{
    let (first, groups) = grouped_in(alloc, bytes, topology, head, terms)?;
    let (second, others) = grouped_in(alloc, bytes, topology, head, later(later(terms)))?;
    Ok(Query::InOut(first, groups, second, others))
}

/// The atom of a hop that sends nothing.
fn end_of(
    alloc: Global,
    bytes: &[u8],
    topology: &Topology,
    head: &Token,
    terms: &[Term<'_>],
) -> Result<Query, NameFault>
    ensures { IsAnswer query_tree result (end_of topology.now bytes.now head.now (trees terms.now)) }
{
    let pred = pred_in(alloc, bytes, topology, head, terms)?;
    Ok(Query::End(pred))
}

/// The atom of a tree.
pub(crate) fn atom_of(
    alloc: Global,
    bytes: &[u8],
    topology: &Topology,
    head: &Token,
    terms: &[Term<'_>],
) -> Result<Query, NameFault>
    ensures { IsAnswer query_tree result (atom_of topology.now bytes.now head.now (trees terms.now)) }
{
    let class = class_in_text(bytes, head);
    if is_class(class, Class::InAtom) {
        let (pred, groups) = bare_in(alloc, bytes, topology, head, terms)?;
        return Ok(Query::In(pred, groups));
    }
    if is_class(class, Class::OutAtom) {
        let (pred, groups) = bare_in(alloc, bytes, topology, head, terms)?;
        return Ok(Query::Out(pred, groups));
    }
    if is_class(class, Class::InOutAtom) {
        return hop_of(alloc, bytes, topology, head, terms);
    }
    if is_class(class, Class::EndAtom) {
        return end_of(alloc, bytes, topology, head, terms);
    }
    if is_class(class, Class::InGroup) {
        let (pred, groups) = grouped_in(alloc, bytes, topology, head, terms)?;
        return Ok(Query::In(pred, groups));
    }
    if is_class(class, Class::OutGroup) {
        let (pred, groups) = grouped_in(alloc, bytes, topology, head, terms)?;
        return Ok(Query::Out(pred, groups));
    }
    if is_class(class, Class::InOutGroup) {
        return grouped_hop_of(alloc, bytes, topology, head, terms);
    }
    Err(faulty(head, NameKind::BadValue))
}
