//! The instances of queries, in order.
ghost use Rattle.std.specs.Prelude.{◌≡◌, ◌<◌, ◌≤◌, ◌^◌, ◌-◌, ◌++◌, [], length, get_or, All, map, IfOk, OnOk, IfErr};
ghost use Rattle.pq_query.specs.Counts.{on_query, sizes_of, with_values};
ghost use Rattle.pq_query.specs.Instances.{IsCause, instances_of, label_sum, named_trees, under_labels};
ghost use Rattle.pq_query.specs.Labels.{ascending, datapath_numbers, one_from_each, port_numbers};
ghost use Rattle.pq_query.specs.Query.{query_tree};

use crate::counts::{count_all, count_labels};
use crate::query::Query;
use crate::sizes::{Sizes, sizes_of};
use crate::values::{Values, datapath_values, port_values, value_lists};
use pq_fields::Label;
use pq_model::Instance;
use pq_term::Name;
use pq_topo::Topology;
use std::alloc::{AllocError, Global};
use thiserror::Error;

/// The most instances of a document.
const MOST_INSTANCES: u32 = 1024;

/// Why the instances of queries are refused.
#[derive(Clone, Copy, Debug, PartialEq, Eq, Error)]
pub enum InstancesFault {
    /// There are more than 1,024 instances: this many, or 4,294,967,295 where there are more.
    #[error("{count} instances")]
    InstancesFull { count: u32 },
    /// There is not enough memory.
    #[error("out of memory")]
    Memory,
}

/// The instances of at most 256 queries over a topology: by query, in order, then by label, ascending, the first value
/// deciding first. It fails where there are more than 1,024, or not enough memory.
pub fn instances(
    alloc: Global,
    queries: &[(Name, Query)],
    topology: &Topology,
) -> Result<Vec<Instance>, InstancesFault>
    requires { length queries.now ≤ 256 }
    ensures instances { IfOk result (λ all. all.items ≡ instances_of topology.now (named_trees queries.now)) }
    ensures within { OnOk result (label_sum topology.now (named_trees queries.now) ≤ 1024) }
    ensures below { IfOk result (λ all. All (λ i. i.query < length queries.now) all.items) }
    ensures cause { IfErr result (λ fault. IsCause fault (label_sum topology.now (named_trees queries.now))) }
{
    let sizes = sizes_of(topology);
    let count = count_all(queries, sizes);
    if MOST_INSTANCES < count {
        return Err(InstancesFault::InstancesFull { count });
    }
    match few_instances(alloc, queries, topology, sizes) {
        Ok(all) => Ok(all),
        Err(_) => Err(InstancesFault::Memory),
    }
}

/// The instances of the queries, of which there are 1,024 at most.
fn few_instances(
    alloc: Global,
    queries: &[(Name, Query)],
    topology: &Topology,
    sizes: Sizes,
) -> Result<Vec<Instance>, AllocError>
    requires queries { length queries.now ≤ 256 }
    requires few { label_sum topology.now (named_trees queries.now) ≤ 1024 }
    requires sizes { sizes ≡ sizes_of topology.now }
    ensures { IfOk result (λ all. all.items ≡ instances_of topology.now (named_trees queries.now)) }
{
    let datapaths = datapath_values(alloc, topology)?;
    let ports = port_values(alloc, topology)?;
    let mut all = Vec::new(alloc);
    for place in 0..queries.len() {
        let query = &queries[place].1;
        let lists = value_lists(alloc, query, datapaths.numbers(), ports.numbers())?;
        let count = count_labels(query, sizes) as usize;
        push_instances(alloc, place as u16, &lists, count, &mut all)?;
    }
    Ok(all)
}

/// Appends the query at this place with each label, of which there are this many: all lists with one value from each.
fn push_instances(
    alloc: Global,
    place: u16,
    lists: &[Values],
    count: usize,
    into: &mut Vec<Instance>,
) -> Result<(), AllocError>
    requires { count ≡ length (one_from_each lists.now) }
    ensures { OnOk result (into.new.items ≡ into.old.items ++ under_labels place (one_from_each lists.now)) }
{
    for number in 0..count {
        let label = label_at(alloc, lists, count, number)?;
        into.push(Instance {
            query: place,
            label,
        })?;
    }
    Ok(())
}

/// The label of this number among this many, which are all lists with one value from each.
fn label_at(
    alloc: Global,
    lists: &[Values],
    count: usize,
    number: usize,
) -> Result<Label, AllocError>
    requires all { count ≡ length (one_from_each lists.now) }
    requires within { number < count }
    ensures { IfOk result (λ label. label ≡ get_or (one_from_each lists.now) number []) }
{
    let mut label = Vec::with_capacity(alloc, lists.len())?;
    let mut block = count;
    let mut place = number;
    for list in lists {
        let values = list.numbers();
        block /= values.len();
        label.push(values[place / block])?;
        place %= block;
    }
    Ok(Label::of(label))
}
