use pq_oxm::*;
use std::alloc::{AllocError, Global};
use std::fmt::Write;
use std::test::Fail;

// The match that states no field.
const ANY: Match = Match {
    in_port: None,
    vlan: None,
    eth_type: None,
    ip_proto: None,
    eth_src: None,
    eth_dst: None,
    ipv4_src: None,
    ipv4_dst: None,
    tcp_src: None,
    tcp_dst: None,
    udp_src: None,
    udp_dst: None,
    ipv6_src: None,
    ipv6_dst: None,
};

/// Two lower-case digits for each byte.
fn hexadecimal(alloc: Global, bytes: &[u8]) -> Result<String, AllocError> {
    let mut text = String::new(alloc);
    for byte in bytes {
        write!(text, "{byte:02x}")?;
    }
    Ok(text)
}

#[test]
fn matches_are_spelled_as_openflow_says(rt: HostRuntime) -> Result<(), Fail> {
    let web = Match {
        in_port: Some(2),
        vlan: Some(0x1002),
        eth_type: Some(0x0800),
        ip_proto: Some(6),
        tcp_dst: Some(80),
        ..ANY
    };
    let ethernet = Match {
        eth_src: Some(0x0200_0000_0001),
        eth_dst: Some(0xffff_ffff_ffff),
        ..ANY
    };
    let ipv4 = Match {
        eth_type: Some(0x0800),
        ipv4_src: Some((0x0a00_0102, 0xffff_ffff)),
        ipv4_dst: Some((0x8000_0000, 0x8000_0000)),
        ..ANY
    };
    let ipv6 = Match {
        eth_type: Some(0x86dd),
        ipv6_dst: Some((
            0x2001_0db8_0000_0000_0000_0000_0000_0000,
            0xffff_ffff_0000_0000_0000_0000_0000_0000,
        )),
        ..ANY
    };
    let alloc = rt.alloc();
    for (value, expected) in [
        (ANY, "0001000400000000"),
        (
            web,
            "000100238000000400000002\
             80000c02100280000a020800800014010680001c0200500000000000",
        ),
        (
            ethernet,
            "0001001880000806020000000001\
             80000606ffffffffffff",
        ),
        (
            ipv4,
            "0001001e80000a020800800016040a000102\
             8000190880000000800000000000",
        ),
        (
            ipv6,
            "0001002e80000a0286dd\
             8000372020010db8000000000000000000000000ffffffff0000000000000000000000000000",
        ),
    ] {
        let mut bytes = Vec::new(alloc);
        write_match(alloc, &value, &mut bytes)?;
        assert_eq!(rt; hexadecimal(alloc, &bytes)?.as_str(), expected);
    }
    Ok(())
}
