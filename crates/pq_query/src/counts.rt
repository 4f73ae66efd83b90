//! The number of labels of a query; no memory is taken.
ghost use Rattle.std.specs.Prelude.{◌≡◌, ◌++◌, ◌^◌, ◌-◌, length, map, min, nat_eq};
ghost use Rattle.std.specs.List.{IsDistinct};
ghost use Rattle.pq_query.specs.Counts.{capped, counted, listed_count, on_groups, on_queries, on_query, sum_counted, times, value_count};
ghost use Rattle.pq_query.specs.Instances.{named_trees};
ghost use Rattle.pq_query.specs.Labels.{ascending, labels};
ghost use Rattle.pq_query.specs.Query.{queries, query_tree};

use crate::group::Group;
use crate::query::Query;
use crate::sizes::{Sizes, sizes_of};
use pq_fields::Field;
use pq_term::Name;
use pq_topo::Topology;

/// The number of labels of a query over a topology, or 4,294,967,295 where it is greater. It takes no memory.
pub fn label_count(query: &Query, topology: &Topology) -> u32
    ensures { result ≡ min (length (labels topology.now (query_tree query.now))) (2 ^ 32 - 1) }
{
    count_labels(query, sizes_of(topology))
}

/// The number of labels of the queries together.
pub(crate) fn count_all(queries: &[(Name, Query)], sizes: Sizes) -> u32
    ensures { result ≡ sum_counted sizes (named_trees queries.now) 0 }
{
    let mut count: u32 = 0;
    for named in queries {
        count = count.saturating_add(count_labels(&named.1, sizes));
    }
    count
}

/// The number of labels of the query, where `switch` and `port` have this many values.
pub(crate) fn count_labels(query: &Query, sizes: Sizes) -> u32
    ensures { result ≡ counted sizes (query_tree query.now) }
{
    times_query(query, sizes, 1)
}

/// This many labels, each with each value of the groups of the query.
/// It recurs as deep as the query nests, in a document at most 100.
#[cycle(counted)]
fn times_query(query: &Query, sizes: Sizes, count: u32) -> u32
    ensures { result ≡ on_query (times sizes) (query_tree query.now) count }
{
    match query {
        Query::In(_, groups) => times_groups(groups, sizes, count),
        Query::Out(_, groups) => times_groups(groups, sizes, count),
        Query::InOut(_, groups, _, others) => times_both(groups, others, sizes, count),
        Query::End(_) => count,
        Query::Cat(operands) => times_queries(operands, sizes, count),
        Query::Or(operands) => times_queries(operands, sizes, count),
        Query::And(operands) => times_queries(operands, sizes, count),
        Query::Not(operand) => times_query(operand, sizes, count),
        Query::Star(operand) => times_query(operand, sizes, count),
    }
}

/// This many labels, each with each value of the groups of the queries.
#[cycle(counted)]
fn times_queries(operands: &[Query], sizes: Sizes, count: u32) -> u32
    ensures { result ≡ on_queries (times sizes) (queries (map query_tree operands.now)) count }
{
    let mut product = count;
    for query in operands {
        product = times_query(query, sizes, product);
    }
    product
}

/// This many labels, each with each value of the groups and then of the others.
fn times_both(groups: &[Group], others: &[Group], sizes: Sizes, count: u32) -> u32
    ensures { result ≡ on_groups (times sizes) (groups.now ++ others.now) count }
{
    let product = times_groups(groups, sizes, count);
    times_groups(others, sizes, product)
}

/// This many labels, each with each value of the groups.
fn times_groups(groups: &[Group], sizes: Sizes, count: u32) -> u32
    ensures { result ≡ on_groups (times sizes) groups.now count }
{
    let mut product = count;
    for group in groups {
        product = product.saturating_mul(value_count(group, sizes));
    }
    product
}

/// The number of values that the group takes.
fn value_count(group: &Group, sizes: Sizes) -> u32
    ensures { result ≡ value_count sizes group.now }
{
    match &group.values {
        Some(values) => stated_count(values),
        None => listed_count(group.field, sizes),
    }
}

/// The number of stated values, which differ.
fn stated_count(values: &[u64]) -> u32
    requires { IsDistinct nat_eq values.now }
    ensures { result ≡ capped (length (ascending values.now)) }
{
    let count = values.len();
    if 0xffff_ffff < count {
        return 0xffff_ffff;
    }
    count as u32
}

/// The number of values of `switch` or of `port`.
fn listed_count(field: Field, sizes: Sizes) -> u32
    ensures { result ≡ listed_count sizes field }
{
    if field == Field::Switch {
        return sizes.switches;
    }
    sizes.ports
}
