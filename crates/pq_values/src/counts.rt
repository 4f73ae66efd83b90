//! Stated numbers, counted.
ghost use Rattle.std.specs.Prelude.{◌≡◌, [], IfOk};
ghost use Rattle.pq_query.specs.Instances.{named_trees};
ghost use Rattle.pq_values.specs.Known.{known_count, with_each, with_policy, with_query, with_switch};
ghost use Rattle.pq_values.specs.Limits.{first_above, first_full, limits};
ghost use Rattle.pq_values.specs.Stated.{part_trees, stated};

use crate::numbers::put_switches;
use crate::policies::put_parts;
use crate::queries::put_named;
use indexmap::IndexSet;
use pq_fields::Field;
use pq_policy::Policy;
use pq_query::Query;
use pq_term::Name;
use pq_topo::Topology;
use std::alloc::{AllocError, Global};

/// How many different numbers may be stated for a field, in field order.
const LIMITS: [(Field, u64); 9] = [
    (Field::Port, 512),
    (Field::EthType, 256),
    (Field::IpProto, 120),
    (Field::EthSrc, 1024),
    (Field::EthDst, 1024),
    (Field::TcpSrc, 512),
    (Field::TcpDst, 512),
    (Field::UdpSrc, 512),
    (Field::UdpDst, 512),
];

/// How many of the numbers are the field's.
fn count_of(known: &[(Field, u64)], field: Field) -> u64
    ensures { result ≡ known_count known.now field }
{
    let mut count = 0;
    for stated in known {
        if stated.0 == field {
            count += 1;
        }
    }
    count
}

/// The first of the fields that has more numbers than this, with how many these are.
fn first_of(known: &[(Field, u64)], limits: &[(Field, u64)]) -> Option<(Field, u64)>
    ensures { result ≡ first_above (known_count known.now) limits.now }
{
    for limit in limits {
        let count = count_of(known, limit.0);
        if limit.1 < count {
            return Some((limit.0, count));
        }
    }
    None
}

/// The numbers that a network, policies and queries state for fields, each once.
fn gathered(
    alloc: Global,
    topology: &Topology,
    parts: &[(Name, Policy)],
    queries: &[(Name, Query)],
) -> Result<IndexSet<(Field, u64)>, AllocError>
    ensures { IfOk result (λ known. known.keys ≡
        with_each with_query (named_trees queries.now) (with_each with_policy (part_trees parts.now) (with_each with_switch topology.now.switches []))) }
{
    let mut known = IndexSet::new(alloc);
    put_switches(topology.switches(), &mut known)?;
    put_parts(parts, &mut known)?;
    put_named(queries, &mut known)?;
    Ok(known)
}

/// The first field for which a network, policies and queries state more different numbers than its limit allows, with how
/// many these are; `None` exactly where no field is above its limit.
///
/// Numbers are stated in tests, writes and lists of values; for ports also by `Fwd` and by the ports of switches. The limits
/// are 512 for `Port`, 256 for `EthType`, 120 for `IpProto`, 1,024 for each MAC address, and 512 for each port of TCP or UDP;
/// datapath numbers and IP addresses have none. It fails only where there is not enough memory.
pub fn values_full(
    alloc: Global,
    topology: &Topology,
    parts: &[(Name, Policy)],
    queries: &[(Name, Query)],
) -> Result<Option<(Field, u64)>, AllocError>
    ensures { IfOk result (λ full. full ≡ first_full (stated topology.now (part_trees parts.now) (named_trees queries.now))) }
{
    let known = gathered(alloc, topology, parts, queries)?;
    let full = first_of(known.as_slice(), &LIMITS);
    Ok(full)
}
