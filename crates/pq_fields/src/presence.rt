ghost use Rattle.std.specs.Prelude.{◌≡◌};
ghost use Rattle.pq_fields.specs.Packet.{has_field, is_ip, is_ipv4, is_ipv6, is_tcp, is_udp};

use crate::field::Field;
use crate::packet::Packet;
use crate::protocols::{IPV4, IPV6, TCP, UDP};

/// Whether the packet has the field: the prerequisites of OpenFlow 1.3.5, section 7.2.3.6.
pub fn has(field: Field, x: &Packet) -> bool
    ensures { result ≡ has_field field x.now }
{
    match field {
        Field::Switch | Field::Port | Field::EthType | Field::EthSrc | Field::EthDst => true,
        Field::IpProto => has_ip(x),
        Field::Ipv4Src | Field::Ipv4Dst => has_ipv4(x),
        Field::TcpSrc | Field::TcpDst => has_tcp(x),
        Field::UdpSrc | Field::UdpDst => has_udp(x),
        Field::Ipv6Src | Field::Ipv6Dst => has_ipv6(x),
    }
}

fn has_ipv4(x: &Packet) -> bool
    ensures { result ≡ is_ipv4 x.now }
{
    x.eth_type == IPV4
}

fn has_ipv6(x: &Packet) -> bool
    ensures { result ≡ is_ipv6 x.now }
{
    x.eth_type == IPV6
}

fn has_ip(x: &Packet) -> bool
    ensures { result ≡ is_ip x.now }
{
    has_ipv4(x) || has_ipv6(x)
}

fn has_tcp(x: &Packet) -> bool
    ensures { result ≡ is_tcp x.now }
{
    has_ip(x) && x.ip_proto == TCP
}

fn has_udp(x: &Packet) -> bool
    ensures { result ≡ is_udp x.now }
{
    has_ip(x) && x.ip_proto == UDP
}
