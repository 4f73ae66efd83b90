use std::marker::Model;

/// A link between two ports, each given by a datapath number and a port number.
#[derive(Clone, Copy, Debug, PartialEq, Eq)]
pub struct Link {
    /// The smaller end.
    pub first: (u64, u32),
    pub second: (u64, u32),
}

impl Model for Link {
    ghost use Rattle.pq_model.specs.Topology.{Link as LinkValue};

    ghost Value = { LinkValue };

    ghost view = { λ l. record { first = l.first; second = l.second } };

    ghost inverse = { λ l. record { first = l.first; second = l.second } };
}
