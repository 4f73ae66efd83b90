//! Queries of few atoms, built by hand.
ghost use Rattle.std.specs.Prelude.{◌≡◌, IfOk, [], ◌∷◌, Some, nat_eq};
ghost use Rattle.std.specs.List.{IsDistinct};
ghost use Rattle.pq_fields.specs.declared.field.Field.TheVariants.{Switch};
ghost use Rattle.pq_fields.specs.Pred.{pred_tree};
ghost use Rattle.pq_query.specs.Query.QueryTop.{Ends, Enters};
ghost use Rattle.pq_query.specs.Query.{leaf, query_tree};
ghost use Rattle.automaton_sizes.specs.Queries.{
  all_but,
  any_number,
  any_packets,
  anything,
  entering,
  in_turn,
  leaving,
  port_is,
  switch_is,
};

use pq_fields::{Field, Pred};
use pq_query::{Group, Query};
use std::alloc::{AllocError, Global};

/// `in_atom(PRED)`.
pub fn in_atom(alloc: Global, pred: Pred) -> Query
    ensures { query_tree result ≡ entering (pred_tree pred) }
{
    Query::In(pred, Vec::new(alloc))
}

/// `out_atom(PRED)`.
pub fn out_atom(alloc: Global, pred: Pred) -> Query
    ensures { query_tree result ≡ leaving (pred_tree pred) }
{
    Query::Out(pred, Vec::new(alloc))
}

/// `switch=NUMBER`.
pub fn at_switch(number: u64) -> Pred
    ensures { pred_tree result ≡ switch_is number }
{
    Pred::Equal(Field::Switch, number)
}

/// `port=NUMBER`.
pub fn at_port(number: u64) -> Pred
    ensures { pred_tree result ≡ port_is number }
{
    Pred::Equal(Field::Port, number)
}

/// `FIELD of (VALUES)`; the values differ.
pub fn group(field: Field, values: Vec<u64>) -> Group
    requires { IsDistinct nat_eq values.items }
    ensures { result ≡ record { field = field; values = Some values.items } }
{
    Group {
        field,
        values: Some(values),
    }
}

/// `FIRST ^ SECOND`.
pub fn joined(alloc: Global, first: Query, second: Query) -> Result<Query, AllocError>
    ensures { IfOk result (λ q. query_tree q ≡ in_turn (query_tree first ∷ query_tree second ∷ [])) }
{
    let mut operands = Vec::new(alloc);
    operands.push(first)?;
    operands.push(second)?;
    Ok(Query::Cat(operands))
}

/// `QUERY*`.
pub fn repeated(alloc: Global, query: Query) -> Result<Query, AllocError>
    ensures { IfOk result (λ q. query_tree q ≡ any_number (query_tree query)) }
{
    match Box::new(alloc, query) {
        Ok(operand) => Ok(Query::Star(operand)),
        Err(_) => Err(AllocError),
    }
}

/// `in_atom(true)*`.
pub fn any_packets(alloc: Global) -> Result<Query, AllocError>
    ensures { IfOk result (λ q. query_tree q ≡ any_packets) }
{
    let query = repeated(alloc, in_atom(alloc, Pred::True))?;
    Ok(query)
}

/// `~QUERY`.
pub fn without(alloc: Global, query: Query) -> Result<Query, AllocError>
    ensures { IfOk result (λ q. query_tree q ≡ all_but (query_tree query)) }
{
    match Box::new(alloc, query) {
        Ok(operand) => Ok(Query::Not(operand)),
        Err(_) => Err(AllocError),
    }
}

/// `in_atom(switch=1) ^ in_atom(switch=2)*`.
pub fn zero_repeats(alloc: Global) -> Result<Query, AllocError>
    ensures { IfOk result (λ q. query_tree q ≡ in_turn (entering (switch_is 1) ∷ any_number (entering (switch_is 2)) ∷ [])) }
{
    let repeats = repeated(alloc, in_atom(alloc, at_switch(2)))?;
    joined(alloc, in_atom(alloc, at_switch(1)), repeats)
}

/// `~in_atom(true)`.
pub fn complement(alloc: Global) -> Result<Query, AllocError>
    ensures { IfOk result (λ q. query_tree q ≡ all_but (entering anything)) }
{
    without(alloc, in_atom(alloc, Pred::True))
}

/// `in_group(true, [switch of (1, 2)]) ^ out_atom(port=3)`.
pub fn labels(alloc: Global) -> Result<Query, AllocError>
    ensures { IfOk result (λ q. query_tree q ≡ in_turn
        (leaf (Enters anything (record { field = Switch; values = Some (1 ∷ 2 ∷ []) } ∷ [])) ∷ leaving (port_is 3) ∷ [])) }
{
    let values = vec![in alloc; 1, 2]?;
    let mut groups = Vec::new(alloc);
    groups.push(group(Field::Switch, values))?;
    joined(
        alloc,
        Query::In(Pred::True, groups),
        out_atom(alloc, at_port(3)),
    )
}

/// `(in_atom(switch=1) ^ in_atom(switch=2))*`.
pub fn a_loop(alloc: Global) -> Result<Query, AllocError>
    ensures { IfOk result (λ q. query_tree q ≡ any_number (in_turn (entering (switch_is 1) ∷ entering (switch_is 2) ∷ []))) }
{
    let both = joined(
        alloc,
        in_atom(alloc, at_switch(1)),
        in_atom(alloc, at_switch(2)),
    )?;
    repeated(alloc, both)
}

/// `in_atom(true)* ^ in_atom(switch=2)`.
pub fn two_packets(alloc: Global) -> Result<Query, AllocError>
    ensures { IfOk result (λ q. query_tree q ≡ in_turn (any_packets ∷ entering (switch_is 2) ∷ [])) }
{
    let repeats = any_packets(alloc)?;
    joined(alloc, repeats, in_atom(alloc, at_switch(2)))
}

/// `end_atom(true)`.
pub fn dropped() -> Query
    ensures { query_tree result ≡ leaf (Ends anything) }
{
    Query::End(Pred::True)
}
