//! Queries of many atoms or instances, built by hand.
ghost use Rattle.std.specs.Prelude.{◌≡◌, ◌<◌, IfOk, [], ◌∷◌, ◌++◌};
ghost use Rattle.pq_query.specs.Query.{query_tree};
ghost use Rattle.automaton_sizes.specs.Queries.{
  any_packets,
  anything,
  at_many_ports,
  entering,
  in_turn,
  one_of,
  times,
  turned,
  varied_atoms,
  varied_chains,
  varied_port,
  waypoints,
};

use crate::queries::{any_packets, at_port, at_switch, group, in_atom, without};
use pq_fields::{Field, Pred};
use pq_query::Query;
use std::alloc::{AllocError, Global};

/// This many times `in_atom(true)` and then the last query, joined by `^`.
pub fn chain(alloc: Global, count: u32, last: Query) -> Result<Query, AllocError>
    ensures { IfOk result (λ q. query_tree q ≡ in_turn (times count (entering anything) ++ query_tree last ∷ [])) }
{
    let mut operands = Vec::new(alloc);
    for _ in 0..count {
        operands.push(in_atom(alloc, Pred::True))?;
    }
    operands.push(last)?;
    Ok(Query::Cat(operands))
}

/// This many times `in_atom(true)*`, joined by `^`.
pub fn streams(alloc: Global, count: u32) -> Result<Query, AllocError>
    ensures { IfOk result (λ q. query_tree q ≡ in_turn (times count any_packets)) }
{
    let mut operands = Vec::new(alloc);
    for _ in 0..count {
        operands.push(any_packets(alloc)?)?;
    }
    Ok(Query::Cat(operands))
}

/// `in_atom(true)` after this many `~`.
pub fn complements(alloc: Global, count: u32) -> Result<Query, AllocError>
    ensures { IfOk result (λ q. query_tree q ≡ turned count) }
{
    let mut query = in_atom(alloc, Pred::True);
    for _ in 0..count {
        query = without(alloc, query)?;
    }
    Ok(query)
}

/// `in_atom(switch=1) ^ in_atom(true)* ^ in_atom(switch=2) ^ in_atom(true)* ^ ..`, up to the last switch.
pub fn waypoints(alloc: Global, last: u32) -> Result<Query, AllocError>
    requires { 0 < last }
    ensures { IfOk result (λ q. query_tree q ≡ waypoints last) }
{
    let mut operands = Vec::new(alloc);
    for passed in 0..last - 1 {
        operands.push(in_atom(alloc, at_switch(u64::from(passed) + 1)))?;
        operands.push(any_packets(alloc)?)?;
    }
    operands.push(in_atom(alloc, at_switch(u64::from(last))))?;
    Ok(Query::Cat(operands))
}

/// `in_group(true, [port of (1, .., 32)])`.
pub fn grouped_atom(alloc: Global) -> Result<Query, AllocError>
    ensures { IfOk result (λ q. query_tree q ≡ at_many_ports) }
{
    let values = vec![in alloc;
        1, 2, 3, 4, 5, 6, 7, 8, 9, 10, 11, 12, 13, 14, 15, 16, 17, 18, 19, 20, 21, 22, 23, 24, 25,
        26, 27, 28, 29, 30, 31, 32,
    ]?;
    let mut groups = Vec::new(alloc);
    groups.push(group(Field::Port, values))?;
    Ok(Query::In(Pred::True, groups))
}

/// The union of this many chains of ten atoms.
pub fn union(alloc: Global, count: u8) -> Result<Query, AllocError>
    ensures { IfOk result (λ q. query_tree q ≡ one_of (varied_chains count)) }
{
    let mut operands = Vec::new(alloc);
    for chain in 0..count {
        operands.push(varied_chain(alloc, chain)?)?;
    }
    Ok(Query::Or(operands))
}

/// Ten atoms `in_atom(port=NUMBER)`, joined by `^`, whose numbers are from 1 to 7 and vary with the number of the chain.
fn varied_chain(alloc: Global, chain: u8) -> Result<Query, AllocError>
    ensures { IfOk result (λ q. query_tree q ≡ in_turn (varied_atoms chain 10)) }
{
    let mut operands = Vec::new(alloc);
    for place in 0..10u8 {
        operands.push(in_atom(alloc, at_port(varied_port(chain, place))))?;
    }
    Ok(Query::Cat(operands))
}

/// A port from 1 to 7 that varies with two numbers.
fn varied_port(chain: u8, place: u8) -> u64
    ensures { result ≡ varied_port chain place }
{
    let (chain, place) = (u64::from(chain), u64::from(place));
    (chain + chain / 7 * place + place * place) % 7 + 1
}
