//! The queries of trees.
ghost use Rattle.std.specs.Prelude.{◌≡◌, map};
ghost use Rattle.pq_tree.specs.Trees.{tree, trees};
ghost use Rattle.pq_topo.specs.Naming.{IsAnswer, gathered};
ghost use Rattle.pq_query.specs.Query.{Both, Either, InTurn, Other, Repeated, query_tree};
ghost use Rattle.pq_query.specs.Resolved.{joined, query_of, query_readings, single};

use crate::atoms::atom_of;
use crate::query::Query;
use pq_grammar::{Class, is_class};
use pq_pred::faulty;
use pq_term::Token;
use pq_topo::{NameFault, NameKind, Topology};
use pq_tree::{Term, class_in_text};
use std::alloc::Global;

/// The query that the tree of a query stands for; the first faulty token where there is one.
/// It recurs as deep as the text nests, at most 100.
#[cycle(resolve)]
pub fn resolve_query(
    alloc: Global,
    term: &Term<'_>,
    bytes: &[u8],
    topology: &Topology,
) -> Result<Query, NameFault>
    ensures { IsAnswer query_tree result (query_of topology.now bytes.now (tree term.now)) }
{
    let class = class_in_text(bytes, &term.head);
    if is_class(class, Class::Caret) {
        let operands = resolve_all(alloc, term.children, bytes, topology)?;
        return in_turn(&term.head, operands);
    }
    if is_class(class, Class::Bar) {
        let operands = resolve_all(alloc, term.children, bytes, topology)?;
        return either(&term.head, operands);
    }
    if is_class(class, Class::Ampersand) {
        let operands = resolve_all(alloc, term.children, bytes, topology)?;
        return both(&term.head, operands);
    }
    if is_class(class, Class::Tilde) {
        let operands = resolve_all(alloc, term.children, bytes, topology)?;
        return other(alloc, &term.head, operands);
    }
    if is_class(class, Class::Star) {
        let operands = resolve_all(alloc, term.children, bytes, topology)?;
        return repeated(alloc, &term.head, operands);
    }
    atom_of(alloc, bytes, topology, &term.head, term.children)
}

/// The queries of trees.
#[cycle(resolve)]
fn resolve_all(
    alloc: Global,
    terms: &[Term<'_>],
    bytes: &[u8],
    topology: &Topology,
) -> Result<Vec<Query>, NameFault>
    ensures { IsAnswer (λ qs. map query_tree qs.items) result (gathered (query_readings topology.now bytes.now (trees terms.now))) }
{
    let mut found = Vec::new(alloc);
    for term in terms {
        let query = resolve_query(alloc, term, bytes, topology)?;
        match found.push(query) {
            Ok(()) => {}
            Err(_) => return Err(NameFault::Memory),
        }
    }
    Ok(found)
}

/// The operands one after another.
fn in_turn(head: &Token, operands: Vec<Query>) -> Result<Query, NameFault>
    ensures { IsAnswer query_tree result (joined head.now InTurn (map query_tree operands.items)) }
{
    if operands.is_empty() {
        return Err(faulty(head, NameKind::BadValue));
    }
    Ok(Query::Cat(operands))
}

/// Any of the operands.
fn either(head: &Token, operands: Vec<Query>) -> Result<Query, NameFault>
    ensures { IsAnswer query_tree result (joined head.now Either (map query_tree operands.items)) }
{
    if operands.is_empty() {
        return Err(faulty(head, NameKind::BadValue));
    }
    Ok(Query::Or(operands))
}

/// All the operands.
fn both(head: &Token, operands: Vec<Query>) -> Result<Query, NameFault>
    ensures { IsAnswer query_tree result (joined head.now Both (map query_tree operands.items)) }
{
    if operands.is_empty() {
        return Err(faulty(head, NameKind::BadValue));
    }
    Ok(Query::And(operands))
}

/// What the one operand doesn't hold.
fn other(alloc: Global, head: &Token, mut operands: Vec<Query>) -> Result<Query, NameFault>
    ensures { IsAnswer query_tree result (single head.now Other (map query_tree operands.items)) }
{
    if operands.len() != 1 {
        return Err(faulty(head, NameKind::BadValue));
    }
    let Some(operand) = operands.pop() else {
        return Err(faulty(head, NameKind::BadValue));
    };
    match Box::new(alloc, operand) {
        Ok(operand) => Ok(Query::Not(operand)),
        Err(_) => Err(NameFault::Memory),
    }
}

/// The one operand, any number of times.
fn repeated(alloc: Global, head: &Token, mut operands: Vec<Query>) -> Result<Query, NameFault>
    ensures { IsAnswer query_tree result (single head.now Repeated (map query_tree operands.items)) }
{
    if operands.len() != 1 {
        return Err(faulty(head, NameKind::BadValue));
    }
    let Some(operand) = operands.pop() else {
        return Err(faulty(head, NameKind::BadValue));
    };
    match Box::new(alloc, operand) {
        Ok(operand) => Ok(Query::Star(operand)),
        Err(_) => Err(NameFault::Memory),
    }
}
