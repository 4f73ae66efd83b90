//! Lists of packets, by which letters tell predicates apart.
ghost use Rattle.std.specs.Prelude.{◌≡◌, ◌<◌, IfOk};
ghost use Rattle.automaton_sizes.specs.Places.{at_first_places, place};

use pq_fields::{Field, Packet};
use std::alloc::{AllocError, Global};

/// The packet at a port of a switch; its other numbers are 0.
pub fn packet_at(switch: u64, port: u32) -> Packet
    ensures { result ≡ place switch port }
{
    Packet::zero()
        .with(Field::Switch, switch)
        .with(Field::Port, u64::from(port))
}

/// The packets at the first places, this many, where switches and ports begin with 0 and each switch has this many ports.
pub fn at_places(alloc: Global, count: u32, ports: u32) -> Result<Vec<Packet>, AllocError>
    requires { 0 < ports }
    ensures { IfOk result (λ ps. ps.items ≡ at_first_places ports count) }
{
    let mut packets = Vec::new(alloc);
    for number in 0..count {
        packets.push(packet_at(u64::from(number / ports), number % ports))?;
    }
    Ok(packets)
}
