//! The predicates of trees.
ghost use Rattle.std.specs.Prelude.{◌≡◌, map};
ghost use Rattle.pq_tree.specs.Trees.{tree, trees};
ghost use Rattle.pq_fields.specs.Pred.{Negated, Every, Some as SomeHold, pred_tree};
ghost use Rattle.pq_topo.specs.Naming.{IsAnswer, gathered};
ghost use Rattle.pq_pred.specs.Predicates.{joined, negation, pred_of, pred_readings, test_at, test_below};

use crate::tests_of_fields::test_of;
use crate::values::{faulty, field_at};
use pq_fields::Pred;
use pq_grammar::{Class, is_class};
use pq_term::Token;
use pq_topo::{NameFault, NameKind, Topology};
use pq_tree::{Term, class_in_text, text_in};
use std::alloc::Global;

/// The predicate that the tree of a predicate stands for; the first faulty token where there is one.
/// It recurs as deep as the text nests, at most 100.
#[cycle(resolve)]
pub fn resolve_pred(
    alloc: Global,
    term: &Term<'_>,
    bytes: &[u8],
    topology: &Topology,
) -> Result<Pred, NameFault>
    ensures { IsAnswer pred_tree result (pred_of topology.now bytes.now (tree term.now)) }
{
    let class = class_in_text(bytes, &term.head);
    if is_class(class, Class::TrueWord) {
        return Ok(Pred::True);
    }
    if is_class(class, Class::FalseWord) {
        return Ok(Pred::False);
    }
    if is_class(class, Class::NotWord) {
        let operands = resolve_all(alloc, term.children, bytes, topology)?;
        return negation(alloc, &term.head, operands);
    }
    if is_class(class, Class::AndWord) {
        let operands = resolve_all(alloc, term.children, bytes, topology)?;
        return every(&term.head, operands);
    }
    if is_class(class, Class::OrWord) {
        let operands = resolve_all(alloc, term.children, bytes, topology)?;
        return some(&term.head, operands);
    }
    test_below(&term.head, term.children, bytes, topology)
}

/// The predicates of trees.
#[cycle(resolve)]
fn resolve_all(
    alloc: Global,
    terms: &[Term<'_>],
    bytes: &[u8],
    topology: &Topology,
) -> Result<Vec<Pred>, NameFault>
    ensures { IsAnswer (λ ps. map pred_tree ps.items) result (gathered (pred_readings topology.now bytes.now (trees terms.now))) }
{
    let mut found = Vec::new(alloc);
    for term in terms {
        let pred = resolve_pred(alloc, term, bytes, topology)?;
        match found.push(pred) {
            Ok(()) => {}
            Err(_) => return Err(NameFault::Memory),
        }
    }
    Ok(found)
}

/// The negation of the one operand.
fn negation(alloc: Global, head: &Token, mut operands: Vec<Pred>) -> Result<Pred, NameFault>
    ensures { IsAnswer pred_tree result (negation head.now (map pred_tree operands.items)) }
{
    if operands.len() != 1 {
        return Err(faulty(head, NameKind::BadValue));
    }
    let Some(operand) = operands.pop() else {
        return Err(faulty(head, NameKind::BadValue));
    };
    match Box::new(alloc, operand) {
        Ok(operand) => Ok(Pred::Not(operand)),
        Err(_) => Err(NameFault::Memory),
    }
}

/// The predicate that holds where each of the operands does.
fn every(head: &Token, operands: Vec<Pred>) -> Result<Pred, NameFault>
    ensures { IsAnswer pred_tree result (joined head.now Every (map pred_tree operands.items)) }
{
    if operands.is_empty() {
        return Err(faulty(head, NameKind::BadValue));
    }
    Ok(Pred::And(operands))
}

/// The predicate that holds where one of the operands does.
fn some(head: &Token, operands: Vec<Pred>) -> Result<Pred, NameFault>
    ensures { IsAnswer pred_tree result (joined head.now SomeHold (map pred_tree operands.items)) }
{
    if operands.is_empty() {
        return Err(faulty(head, NameKind::BadValue));
    }
    Ok(Pred::Or(operands))
}

/// The test of a field for a value.
fn test_at(
    field: &Token,
    value: &Token,
    bytes: &[u8],
    topology: &Topology,
) -> Result<Pred, NameFault>
    ensures { IsAnswer pred_tree result (test_at topology.now bytes.now field.now value.now) }
{
    let name = field_at(bytes, field)?;
    match test_of(topology, name, text_in(bytes, value)) {
        Ok(pred) => Ok(pred),
        Err(kind) => Err(faulty(value, kind)),
    }
}

/// The test of the field for the value that is below it.
fn test_below(
    field: &Token,
    children: &[Term<'_>],
    bytes: &[u8],
    topology: &Topology,
) -> Result<Pred, NameFault>
    ensures { IsAnswer pred_tree result (test_below topology.now bytes.now field.now (trees children.now)) }
{
    match children {
        [value, ..] => test_at(field, &value.head, bytes, topology),
        [] => Err(faulty(field, NameKind::BadValue)),
    }
}
