use pq_policy::Policy;
use pq_query::Query;
use pq_term::Name;
use pq_topo::Topology;

/// What a text describes: a network, the parts of a forwarding policy, and queries. Parts and queries are in text order;
/// names differ among parts, and among queries.
#[derive(Debug, Drop)]
pub struct Document {
    pub topology: Topology,
    pub parts: Vec<(Name, Policy)>,
    pub queries: Vec<(Name, Query)>,
}
