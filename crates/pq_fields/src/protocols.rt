//! The numbers by which a packet names its protocols (IEEE 802 EtherTypes, IANA protocol numbers).

/// The EtherType of IPv4.
pub const IPV4: u64 = 0x0800;

/// The EtherType of IPv6.
pub const IPV6: u64 = 0x86dd;

/// The IP protocol number of TCP.
pub const TCP: u64 = 6;

/// The IP protocol number of UDP.
pub const UDP: u64 = 17;
