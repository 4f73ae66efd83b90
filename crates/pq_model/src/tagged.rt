use pq_fields::Packet;
use std::marker::Model;

/// A packet with its VLAN header, if it has one.
#[derive(Clone, Copy, Debug, PartialEq, Eq)]
pub struct Tagged {
    pub packet: Packet,
    /// The VLAN number, 0 to 4095.
    pub vlan: Option<u16>,
}

impl Model for Tagged {
    ghost use Rattle.std.specs.Prelude.{◌<◌, ◌^◌};
    ghost use Rattle.std.specs.Option.{IfSome};
    ghost use Rattle.pq_model.specs.Tagged.{TaggedPacket};

    ghost Value = { TaggedPacket };

    ghost view = { λ x. record { packet = x.packet; vlan = x.vlan } };

    ghost inverse = { λ x. record { packet = x.packet; vlan = x.vlan } };

    ghost invariant = { λ x. IfSome x.vlan (λ t. t < 2 ^ 12) };
}

/// A copy that a switch sends.
#[derive(Clone, Copy, Debug, PartialEq, Eq)]
pub enum Sent {
    /// At the port that the packet's `port` names.
    Port(Tagged),
    /// To the controller; the packet's `port` is the one at which it arrived.
    Controller(Tagged),
}
