use pq_fields::Packet;
use pq_model::Instance;
use std::marker::Model;

/// An entry of a bucket: what the collector gets for one packet and one instance.
#[derive(Debug, Drop)]
pub struct Entry {
    /// The instance in whose bucket the entry lies.
    pub pair: Instance,
    /// The observed packet, at the port at which it arrived at its switch.
    pub packet: Packet,
}

impl Model for Entry {
    ghost use Rattle.pq_model.specs.Buckets.{BucketEntry};

    ghost Value = { BucketEntry };

    ghost view = { λ e. record { pair = e.pair; packet = e.packet } };
}
