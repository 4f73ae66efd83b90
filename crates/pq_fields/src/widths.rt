ghost use Rattle.std.specs.Prelude.{◌≡◌};
ghost use Rattle.pq_fields.specs.Packet.{width_of};

use crate::field::Field;

/// The width of a field in bits (OpenFlow 1.3.5, section 7.2.3.7; a datapath number has 64).
pub fn width(field: Field) -> u32
    ensures { result ≡ width_of field }
{
    match field {
        Field::Switch => 64,
        Field::Port => 32,
        Field::EthType => 16,
        Field::IpProto => 8,
        Field::EthSrc | Field::EthDst => 48,
        Field::Ipv4Src | Field::Ipv4Dst => 32,
        Field::TcpSrc | Field::TcpDst | Field::UdpSrc | Field::UdpDst => 16,
        Field::Ipv6Src | Field::Ipv6Dst => 128,
    }
}
