use pq_fields::Label;
use std::marker::Model;

/// An instance of a query: the query and one of its labels.
#[derive(Debug, Drop)]
pub struct Instance {
    /// The place of the query in its document, counted from 0.
    pub query: u16,
    pub label: Label,
}

impl Model for Instance {
    ghost use Rattle.pq_model.specs.Buckets.{Instance as InstanceValue};

    ghost Value = { InstanceValue };

    ghost view = { λ i. record { query = i.query; label = i.label } };
}
