//! Automata of queries.
ghost use Rattle.std.specs.Prelude.{◌≡◌, ◌<◌, length, IfOk};

use crate::atom_count::{MOST, atom_count};
use pq_auto::{Automaton, explore};
use pq_expr::Expr;
use pq_fields::{Packet, Pred, holds};
use pq_io::Steps;
use pq_lower::lower;
use pq_min::{Classes, minimise};
use pq_query::{Instance, Query, instances};
use pq_term::Name;
use pq_topo::Topology;
use std::alloc::{AllocError, Global};
use std::sync::ledger::{Blank, Ledger};

/// The least automaton of a query over letters, and what it was made of.
#[derive(Drop)]
pub struct QueryAutomaton {
    /// How many instances the query has.
    pub instances: u64,
    /// How many states were explored.
    pub states: u64,
    /// The least automaton, whose letters are the packets of a list, in order.
    pub classes: Classes,
}

/// The automaton of a query, whose letters are packets: each tells which predicates hold of it.
///
/// The topology is empty, so a grouped field needs values of its own. It fails where there is not enough memory, and also,
/// with the same error, where there is no letter or where the query has more than 1,024 instances or 2^28 atoms.
pub fn automaton_of<L: Ledger>(
    alloc: Global,
    blank: Blank,
    query: Query,
    packets: &[Packet],
) -> Result<QueryAutomaton, AllocError>
    requires name { blank.name ≡ L.name }
    requires parts { blank.parts ≡ L.parts }
    requires some { 0 < blank.parts }
    ensures { IfOk result (λ w. w.classes.letters ≡ length packets.now) }
{
    let mut preds = Vec::new(alloc);
    let exprs = exprs_of(alloc, query, &mut preds)?;
    let alphabet = alphabet(alloc, &preds, packets)?;
    let automaton = explored::<L>(alloc, blank, &exprs, &alphabet)?;
    let states = automaton.count();
    let classes = minimise(alloc, automaton)?;
    Ok(QueryAutomaton {
        instances: exprs.len() as u64,
        states,
        classes,
    })
}

/// The expressions of the instances of the query, in order, over one list of predicates.
fn exprs_of(alloc: Global, query: Query, preds: &mut Vec<Pred>) -> Result<Vec<Expr>, AllocError> {
    let Some(name) = Name::of(b"q") else {
        return Err(AllocError);
    };
    let topology = nowhere(alloc);
    let named = [(name, query)];
    match instances(alloc, &named, &topology) {
        Ok(all) => lowered(alloc, &named[0].1, &all, preds),
        Err(_) => Err(AllocError),
    }
}

/// The topology without switches.
fn nowhere(alloc: Global) -> Topology {
    let switches = Vec::new(alloc);
    let links = Vec::new(alloc);
    Topology::made(switches, links)
}

/// The expressions of these instances of the query.
fn lowered(
    alloc: Global,
    query: &Query,
    all: &[Instance],
    preds: &mut Vec<Pred>,
) -> Result<Vec<Expr>, AllocError> {
    let mut exprs = Vec::new(alloc);
    for instance in all {
        exprs.push(expr_of(alloc, query, instance, preds)?)?;
    }
    Ok(exprs)
}

/// The expression of an instance of the query. It is tried only where there are few predicates and atoms.
fn expr_of(
    alloc: Global,
    query: &Query,
    instance: &Instance,
    preds: &mut Vec<Pred>,
) -> Result<Expr, AllocError> {
    if MOST < atom_count(query) {
        return Err(AllocError);
    }
    if 0x1000_0000 < preds.len() {
        return Err(AllocError);
    }
    lower(alloc, query, &instance.label, preds)
}

/// Of each packet, which of the predicates hold.
fn alphabet(alloc: Global, preds: &[Pred], packets: &[Packet]) -> Result<Vec<Vec<bool>>, AllocError>
    ensures { IfOk result (λ a. length a.items ≡ length packets.now) }
{
    let mut letters = Vec::new(alloc);
    for packet in packets {
        letters.push(truths(alloc, preds, packet)?)?;
    }
    Ok(letters)
}

/// Which of the predicates hold of the packet.
fn truths(alloc: Global, preds: &[Pred], packet: &Packet) -> Result<Vec<bool>, AllocError> {
    let mut truths = Vec::with_capacity(alloc, preds.len())?;
    for pred in preds {
        truths.push(holds(pred, packet))?;
    }
    Ok(truths)
}

/// The automaton of at least one letter and at most 1,024 expressions; others are not tried.
fn explored<L: Ledger>(
    alloc: Global,
    blank: Blank,
    exprs: &[Expr],
    alphabet: &[Vec<bool>],
) -> Result<Automaton, AllocError>
    requires name { blank.name ≡ L.name }
    requires parts { blank.parts ≡ L.parts }
    requires some { 0 < blank.parts }
    ensures { IfOk result (λ a. a.letters ≡ length alphabet.now) }
{
    if alphabet.is_empty() {
        return Err(AllocError);
    }
    if 1024 < exprs.len() {
        return Err(AllocError);
    }
    let (book, share) = blank.open();
    let mut steps: Steps<L> = Steps::start(book, share);
    explore(alloc, exprs, alphabet, &mut steps)
}
