use pq_fields::Field;
use std::marker::Model;

/// A grouped field of an atom, with the values that it takes; without values it takes all datapath numbers or all port
/// numbers of the topology.
///
/// A lawful group has values that fit the width of its field, each once, and a field that is not an IPv6 address; one without
/// values has `Switch` or `Port`.
#[derive(Debug, Drop)]
pub struct Group {
    pub field: Field,
    pub values: Option<Vec<u64>>,
}

impl Model for Group {
    ghost use Rattle.pq_query.specs.Groups.{DiffersEach, Group as GroupValue, stored_group};

    ghost Value = { GroupValue };

    ghost view = { stored_group };

    ghost invariant = { λ g. DiffersEach (stored_group g) };
}
