//! The values that the groups of a query take, ascending.
ghost use Rattle.std.specs.Prelude.{◌≡◌, ◌==◌, [], ◌∷◌, ◌++◌, map, IfOk, OnOk, if◌then◌else◌};
ghost use Rattle.pq_fields.specs.Packet.{rank};
ghost use Rattle.pq_query.specs.Counts.{on_groups, on_queries, on_query, put_last_first, values_of, with_values};
ghost use Rattle.pq_query.specs.Labels.{ascending, datapath_numbers, port_numbers};
ghost use Rattle.pq_query.specs.Query.{queries, query_tree};

use crate::group::Group;
use crate::query::Query;
use pq_fields::Field;
use pq_topo::Topology;
use std::alloc::{AllocError, Global};
use std::collections::BTreeSet;
use std::marker::Model;

/// Numbers.
#[derive(Drop)]
pub(crate) struct Values {
    numbers: Vec<u64>,
}

impl Model for Values {
    ghost use Rattle.std.specs.Prelude.{ℕ, List};

    ghost Value = { List ℕ };

    ghost view = { λ v. v.numbers.items };
}

impl Values {
    /// The numbers.
    pub(crate) fn numbers(&self) -> &[u64]
        ensures { result.now ≡ self.now }
    {
        &self.numbers
    }
}

/// The datapath numbers of the topology, ascending.
pub(crate) fn datapath_values(alloc: Global, topology: &Topology) -> Result<Values, AllocError>
    ensures { IfOk result (λ v. v ≡ ascending (datapath_numbers topology.now)) }
{
    let switches = topology.switches();
    let mut numbers = Vec::new(alloc);
    for switch in switches {
        numbers.push(switch.datapath)?;
    }
    sorted(alloc, &numbers)
}

/// The port numbers of the topology, ascending.
pub(crate) fn port_values(alloc: Global, topology: &Topology) -> Result<Values, AllocError>
    ensures { IfOk result (λ v. v ≡ ascending (port_numbers topology.now)) }
{
    let switches = topology.switches();
    let mut numbers = Vec::new(alloc);
    for switch in switches {
        push_ports(&switch.ports, &mut numbers)?;
    }
    sorted(alloc, &numbers)
}

/// Appends the ports.
fn push_ports(ports: &[u32], into: &mut Vec<u64>) -> Result<(), AllocError>
    ensures { OnOk result (into.new.items ≡ into.old.items ++ ports.now) }
{
    for port in ports {
        into.push(u64::from(*port))?;
    }
    Ok(())
}

/// The numbers in ascending order, each once.
#[tactic(auto, using(crate::proofs::Ascending::put_all_ascends))]
fn sorted(alloc: Global, numbers: &[u64]) -> Result<Values, AllocError>
    ensures { IfOk result (λ v. v ≡ ascending numbers.now) }
{
    let mut set = BTreeSet::new(alloc);
    put_all(numbers, &mut set)?;
    keys_of(alloc, set)
}

/// The numbers of the set, ascending.
fn keys_of(alloc: Global, set: BTreeSet<u64>) -> Result<Values, AllocError>
    ensures { IfOk result (λ v. v ≡ set.keys) }
{
    let mut numbers = Vec::with_capacity(alloc, set.len())?;
    for number in set {
        numbers.push(number)?;
    }
    Ok(Values { numbers })
}

/// Puts the numbers into the set, the last of them first.
fn put_all(numbers: &[u64], into: &mut BTreeSet<u64>) -> Result<(), AllocError>
    ensures { OnOk result (into.new.keys ≡ put_last_first numbers.now into.old.keys) }
{
    let mut left = numbers.len();
    while 0 < left {
        left -= 1;
        match into.insert(numbers[left]) {
            Ok(_) => {}
            Err(_) => return Err(AllocError),
        }
    }
    Ok(())
}

/// The values of the groups of the query, where `switch` and `port` have these.
pub(crate) fn value_lists(
    alloc: Global,
    query: &Query,
    datapaths: &[u64],
    ports: &[u64],
) -> Result<Vec<Values>, AllocError>
    ensures { IfOk result (λ lists. lists.items ≡ on_query (with_values datapaths.now ports.now) (query_tree query.now) []) }
{
    let mut lists = Vec::new(alloc);
    push_query(alloc, query, datapaths, ports, &mut lists)?;
    Ok(lists)
}

/// Appends the values of the groups of the query. It recurs as deep as the query nests, in a document at most 100.
#[cycle(listed)]
fn push_query(
    alloc: Global,
    query: &Query,
    datapaths: &[u64],
    ports: &[u64],
    into: &mut Vec<Values>,
) -> Result<(), AllocError>
    ensures { OnOk result (into.new.items ≡ on_query (with_values datapaths.now ports.now) (query_tree query.now) into.old.items) }
{
    match query {
        Query::In(_, groups) => push_groups(alloc, groups, datapaths, ports, into),
        Query::Out(_, groups) => push_groups(alloc, groups, datapaths, ports, into),
        Query::InOut(_, groups, _, others) => {
            push_both(alloc, groups, others, datapaths, ports, into)
        }
        Query::End(_) => Ok(()),
        Query::Cat(operands) => push_queries(alloc, operands, datapaths, ports, into),
        Query::Or(operands) => push_queries(alloc, operands, datapaths, ports, into),
        Query::And(operands) => push_queries(alloc, operands, datapaths, ports, into),
        Query::Not(operand) => push_query(alloc, operand, datapaths, ports, into),
        Query::Star(operand) => push_query(alloc, operand, datapaths, ports, into),
    }
}

/// Appends the values of the groups of the queries.
#[cycle(listed)]
fn push_queries(
    alloc: Global,
    operands: &[Query],
    datapaths: &[u64],
    ports: &[u64],
    into: &mut Vec<Values>,
) -> Result<(), AllocError>
    ensures { OnOk result (into.new.items ≡ on_queries (with_values datapaths.now ports.now) (queries (map query_tree operands.now)) into.old.items) }
{
    for query in operands {
        push_query(alloc, query, datapaths, ports, into)?;
    }
    Ok(())
}

/// Appends the values of the groups and then of the others.
fn push_both(
    alloc: Global,
    groups: &[Group],
    others: &[Group],
    datapaths: &[u64],
    ports: &[u64],
    into: &mut Vec<Values>,
) -> Result<(), AllocError>
    ensures { OnOk result (into.new.items ≡ on_groups (with_values datapaths.now ports.now) (groups.now ++ others.now) into.old.items) }
{
    push_groups(alloc, groups, datapaths, ports, into)?;
    push_groups(alloc, others, datapaths, ports, into)
}

/// Appends the values of the groups.
fn push_groups(
    alloc: Global,
    groups: &[Group],
    datapaths: &[u64],
    ports: &[u64],
    into: &mut Vec<Values>,
) -> Result<(), AllocError>
    ensures { OnOk result (into.new.items ≡ on_groups (with_values datapaths.now ports.now) groups.now into.old.items) }
{
    for group in groups {
        let values = values_of(alloc, group, datapaths, ports)?;
        into.push(values)?;
    }
    Ok(())
}

/// The values that the group takes.
fn values_of(
    alloc: Global,
    group: &Group,
    datapaths: &[u64],
    ports: &[u64],
) -> Result<Values, AllocError>
    ensures { IfOk result (λ v. v ≡ values_of datapaths.now ports.now group.now) }
{
    match &group.values {
        Some(values) => sorted(alloc, values),
        None => listed(alloc, group.field, datapaths, ports),
    }
}

/// The values of `switch` or of `port`.
fn listed(
    alloc: Global,
    field: Field,
    datapaths: &[u64],
    ports: &[u64],
) -> Result<Values, AllocError>
    ensures { IfOk result (λ v. v ≡ (if rank field == 0 then datapaths.now else ports.now)) }
{
    if field == Field::Switch {
        return copied(alloc, datapaths);
    }
    copied(alloc, ports)
}

/// The same numbers.
fn copied(alloc: Global, numbers: &[u64]) -> Result<Values, AllocError>
    ensures { IfOk result (λ v. v ≡ numbers.now) }
{
    let numbers = Vec::from_slice(alloc, numbers)?;
    Ok(Values { numbers })
}
