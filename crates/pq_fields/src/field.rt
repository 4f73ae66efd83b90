/// A field of a packet, in field order.
///
/// All but `Switch` and `Port` are header fields of OpenFlow 1.3.5, section 7.2.3.7.
#[derive(Clone, Copy, Debug, PartialEq, Eq, PartialOrd, Ord, Hash)]
pub enum Field {
    /// The datapath number of the switch that the packet is at.
    Switch,
    /// The port at which the packet arrived or leaves.
    Port,
    EthType,
    IpProto,
    EthSrc,
    EthDst,
    Ipv4Src,
    Ipv4Dst,
    TcpSrc,
    TcpDst,
    UdpSrc,
    UdpDst,
    Ipv6Src,
    Ipv6Dst,
}
