use pq_fields::{Field, Pred};

/// A forwarding policy: what becomes of a packet at a switch.
///
/// A lawful policy has lawful predicates, writes numbers that fit fields that may be written, sends to ports from 1 to
/// 0xffffff00, and has no empty list of operands.
#[derive(Debug, PartialEq, Eq, Drop)]
pub enum Policy {
    /// The packet.
    Identity,
    /// No packet.
    Drop,
    /// The packet at each port of its switch but the packet's own.
    Flood,
    /// The packet where the predicate holds, and none elsewhere.
    Filter(Pred),
    /// The packet with the field's number replaced by this one, and the packet unchanged where it lacks the field.
    Mod(Field, u64),
    /// The packet at this port.
    Fwd(u32),
    /// The first policy where the predicate holds, and the second elsewhere.
    If(Pred, Box<Policy>, Box<Policy>),
    /// What any of the policies gives.
    Union(Vec<Policy>),
    /// What the last policy gives on what the one before it gives, and so on back to the first.
    Seq(Vec<Policy>),
}
