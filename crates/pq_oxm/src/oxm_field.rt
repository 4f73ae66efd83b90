//! The numbers of the OXM fields of class `OPENFLOW_BASIC` that occur here (OpenFlow 1.3.5, section
//! 7.2.3.7).

/// The arriving port, of 4 bytes.
pub const IN_PORT: u8 = 0;

/// The Ethernet destination, of 6 bytes.
pub const ETH_DST: u8 = 3;

/// The Ethernet source, of 6 bytes.
pub const ETH_SRC: u8 = 4;

/// The Ethernet type, of 2 bytes.
pub const ETH_TYPE: u8 = 5;

/// The VLAN_VID word, of 2 bytes.
pub const VLAN_VID: u8 = 6;

/// The IP protocol, of 1 byte.
pub const IP_PROTO: u8 = 10;

/// The IPv4 source, of 4 bytes.
pub const IPV4_SRC: u8 = 11;

/// The IPv4 destination, of 4 bytes.
pub const IPV4_DST: u8 = 12;

/// The TCP source port, of 2 bytes.
pub const TCP_SRC: u8 = 13;

/// The TCP destination port, of 2 bytes.
pub const TCP_DST: u8 = 14;

/// The UDP source port, of 2 bytes.
pub const UDP_SRC: u8 = 15;

/// The UDP destination port, of 2 bytes.
pub const UDP_DST: u8 = 16;

/// The IPv6 source, of 16 bytes.
pub const IPV6_SRC: u8 = 26;

/// The IPv6 destination, of 16 bytes.
pub const IPV6_DST: u8 = 27;
